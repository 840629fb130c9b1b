//! Executes instructions with the bits of all registers set, and without memory to load or store. Compares their ends
//! with those of the rules.
use crate::ends::{Ending, Found, ending_of};
use crate::lending::{CODE, UserMemory};
use crate::rules::{greatest_length, is_legal, type_read};
use crate::shapes::Shape;
use crate::ways::{Case, LIMIT, Way};
use hart::SingleSlot;
use rv_asm::assemble;
use rv_model::{
    FILE_BYTES, Policy, RequestedLength, Scalar, Seat, VConf, VEnd, VLENB, VState, VectorRequest,
};
use vtype_rules::set;

/// The requested lengths (AVL).
const LENGTHS: [u64; 2] = [13, u64::MAX];

/// The values of each byte of v0.
const MASKS: [u8; 2] = [0xff, 0];

/// Number of runs of an instruction with each end.
#[derive(Clone, Copy, Drop)]
pub(crate) struct Counts {
    pub done: u64,
    pub illegal: u64,
    pub faults: u64,
    pub cuts: u64,
    /// Runs whose end differs from the rules', or that are illegal and change the state.
    pub wrong: u64,
}

/// The state in which an instruction executes.
#[derive(Clone, Copy, Drop)]
pub(crate) struct Setting {
    /// The requested vtype.
    pub request: u64,
    /// The requested length (AVL).
    pub length: u64,
    pub vstart: u8,
    /// The value of each byte of v0.
    pub mask: u8,
}

/// The bytes of the vector registers: 0xff, and `mask` in v0.
fn vector_bytes(mask: u8) -> [u8; FILE_BYTES] {
    let mut bytes = [0xff; FILE_BYTES];
    for byte in bytes.iter_mut().take(VLENB) {
        *byte = mask;
    }
    bytes
}

impl Setting {
    /// The vector state before the instruction.
    fn state(&self, bytes: &[u8; FILE_BYTES]) -> VState {
        let mut state = VState::new();
        state.file.part_mut(0, FILE_BYTES).copy_from_slice(bytes);
        let request = VectorRequest {
            vtype: self.request,
            length: RequestedLength::Elements(self.length),
        };
        state.conf = set(&VConf::vill(), request);
        state.vstart = self.vstart;
        state
    }

    /// The policy for agnostic elements, which alternates: unchanged for an even vstart, and ones for an odd one.
    fn policy(&self) -> Policy {
        if self.vstart % 2 == 0 {
            Policy::Keep
        } else {
            Policy::Ones
        }
    }

    /// The expected end of an instruction.
    fn ending(&self, case: Case<'_>) -> Ending {
        let vtype = type_read(self.request);
        let vl = match vtype {
            Some(vtype) => self.length.min(greatest_length(vtype)),
            None => 0,
        };
        let found = Found {
            vl,
            vstart: self.vstart,
            is_active: !case.masked || self.mask == 0xff,
            limit: LIMIT as u64,
        };
        ending_of(
            case.shape,
            is_legal(case.shape, case.masked, vtype, self.vstart),
            found,
        )
    }
}

impl Counts {
    /// The counts before any run.
    pub(crate) fn new() -> Counts {
        Counts {
            done: 0,
            illegal: 0,
            faults: 0,
            cuts: 0,
            wrong: 0,
        }
    }

    /// Counts a run with this end, and whether it is right.
    fn count(&mut self, end: VEnd, right: bool) {
        let place = match end {
            VEnd::Done => &mut self.done,
            VEnd::Illegal => &mut self.illegal,
            VEnd::Fault { .. } => &mut self.faults,
            VEnd::Cut { .. } => &mut self.cuts,
        };
        *place = place.wrapping_add(1);
        self.wrong = self.wrong.wrapping_add(u64::from(!right));
    }

    /// Executes an instruction, and compares its end with the expected one.
    fn compare(&mut self, case: Case<'_>, setting: Setting, memory: &mut UserMemory) {
        let bytes = vector_bytes(setting.mask);
        let state = setting.state(&bytes);
        let before = state.conf;
        let seat = Seat {
            state,
            dirty: false,
        };
        let mut vectors = SingleSlot { seat };
        let mut scalar = Scalar {
            x: [u64::MAX; 32],
            pc: CODE,
        };
        let wanted = setting.ending(case);
        let policy = setting.policy();
        let right = case.ends_so(wanted, policy, &mut vectors, &mut scalar, memory);
        let Seat { state, dirty } = &vectors.seat;
        let kept = state.file.part(0, FILE_BYTES) == bytes.as_slice()
            && state.conf.vl() == before.vl()
            && state.conf.vtype() == before.vtype()
            && scalar.x == [u64::MAX; 32]
            && !*dirty;
        let same = right && u64::from(state.vstart) == wanted.vstart;
        self.count(wanted.end, same && (kept || wanted.end != VEnd::Illegal));
    }

    /// Executes an instruction with each vector type, length and mask, from one vstart.
    fn compare_types(&mut self, case: Case<'_>, vstart: u8, memory: &mut UserMemory) {
        for request in 0..256 {
            for length in LENGTHS {
                for mask in MASKS {
                    let setting = Setting {
                        request,
                        length,
                        vstart,
                        mask,
                    };
                    self.compare(case, setting, memory);
                }
            }
        }
    }
}

/// Executes the instruction of a text from each vstart, and counts its ends. `None` if the text doesn't assemble or its
/// word can't be written to memory.
pub(crate) fn counts_of(
    text: &str,
    shape: &Shape,
    way: Way,
    memory: &mut UserMemory,
) -> Option<Counts> {
    let word = assemble(text.as_bytes()).ok()?;
    memory.set_word(word)?;
    let case = Case {
        way,
        word,
        masked: text.ends_with("v0.t") || text.ends_with(", v0"),
        shape,
    };
    let mut counts = Counts::new();
    for vstart in 0..=u8::MAX {
        counts.compare_types(case, vstart, memory);
    }
    Some(counts)
}
