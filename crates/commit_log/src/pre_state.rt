//! State before an instruction.
ghost use Rattle.std.specs.Prelude.{◌≡◌, ℕ};
ghost use Rattle.commit_log.specs.Finds.{Finds, Moves, Captures, SameOtherwise};

use rv_model::{Instr, RoundingMode, Scalar, ScalarInstr, VConf, VState};
use scalar_core::{i_immediate, s_immediate};

/// State before an instruction, as far as the instruction's line depends on it: the program counter, the word and its instruction, and the
/// control registers. For a scalar load or store, it includes the address and the value that a store writes. For a vector load or store, it
/// includes all registers.
#[derive(Drop)]
pub struct PreState {
    pub(crate) pc: u64,
    pub(crate) word: u32,
    pub(crate) instr: Option<Instr>,
    pub(crate) conf: VConf,
    pub(crate) vstart: u8,
    pub(crate) vxrm: RoundingMode,
    pub(crate) vxsat: bool,
    pub(crate) address: u64,
    pub(crate) value: u64,
    pub(crate) scalar: Scalar,
    pub(crate) vector: VState,
}

impl PreState {
    /// Create an empty state.
    pub fn new() -> PreState {
        PreState {
            pc: 0,
            word: 0,
            instr: None,
            conf: VConf::vill(),
            vstart: 0,
            vxrm: RoundingMode::NearestUp,
            vxsat: false,
            address: 0,
            value: 0,
            scalar: Scalar::new(),
            vector: VState::new(),
        }
    }

    /// Save the registers of a vector load or store.
    #[inline(never)]
    fn capture_access(&mut self, scalar: &Scalar, vector: &VState)
        ensures { self.new ≡ record self.old { scalar = scalar.now; vector = vector.now } }
    {
        self.scalar = *scalar;
        self.vector.copy_from(vector);
    }

    /// Save the address of a scalar load or store, and the value that a store writes.
    #[inline(always)]
    fn capture_scalar(&mut self, instr: &ScalarInstr, scalar: &Scalar)
        ensures address { Moves instr.now scalar.now self.new }
        ensures others { self.new ≡ record self.old { address = self.new.address; value = self.new.value } }
    {
        match instr {
            ScalarInstr::Load { rs1, imm, .. } => {
                self.address = scalar.read(*rs1).wrapping_add(i_immediate(*imm));
            }
            ScalarInstr::Store { rs1, rs2, imm, .. } => {
                self.address = scalar.read(*rs1).wrapping_add(s_immediate(*imm));
                self.value = scalar.read(*rs2);
            }
            _ => {}
        }
    }

    /// Save the operands of a load or store.
    #[inline(always)]
    fn capture_operands(&mut self, instr: &Option<Instr>, scalar: &Scalar, vector: &VState)
        ensures notes { Captures instr.now scalar.now vector.now self.new }
        ensures others { SameOtherwise self.old self.new }
    {
        match instr {
            Some(Instr::Scalar(instr)) => self.capture_scalar(instr, scalar),
            Some(Instr::Access(_)) => self.capture_access(scalar, vector),
            Some(Instr::Csr(_)) | Some(Instr::Vector(_)) | None => {}
        }
    }

    /// Save the state before an instruction; `instr` is the instruction of `word`.
    #[inline(always)]
    pub fn capture(&mut self, word: u32, instr: &Option<Instr>, scalar: &Scalar, vector: &VState)
        ensures { Finds word instr.now scalar.now vector.now self.new }
    {
        self.pc = scalar.pc;
        self.word = word;
        self.instr = *instr;
        self.conf = vector.conf;
        self.vstart = vector.vstart;
        self.vxrm = vector.vxrm;
        self.vxsat = vector.vxsat;
        self.capture_operands(instr, scalar, vector);
    }
}
