//! Environment calls, breakpoints and accesses of control registers (Unprivileged ISA 20191213, section 2.8
//! and chapter 9, "Zicsr").
ghost use Rattle.std.specs.Prelude.{◌≡◌, ◌&&◌, ◌||◌, IfNone, IfSome, Some, bit_and, false, if◌then◌else◌, true, ℕ};
ghost use Rattle.rv_model.specs.declared.vector.policy.Policy.{Policy};
ghost use Rattle.rv_model.specs.instructions.Table.{scan, table};
ghost use Rattle.rv_model.specs.memory.Memory.{Memory};
ghost use Rattle.rv_model.specs.step.Hart.{hart_state};
ghost use Rattle.rv_model.specs.step.ScalarStep.{csr_step};
ghost use Rattle.rv_model.specs.step.Step.{dirties, executed, touches, touches_control};
ghost use Rattle.rv_model.specs.vector.Control.{is_write};
ghost use Rattle.rv_model.specs.vector.ControlRegisters.{control_register};
ghost use Rattle.rv_model.specs.vector.Groups.{IsConfiguration};
ghost use Rattle.hart.specs.States.{EndsBy, Leads, Returns};

use crate::control_registers::{csr_form, is_write, read, write, written_value};
use crate::ending::Ending;
use crate::environment_call::system;
use crate::faults::illegal;
use crate::retirement::write_rd;
use crate::vectors::Vectors;
use arrayvec::ArrayVec;
use rv_decode::{decode_call, decode_csr};
use rv_model::instructions::operations::CsrOp;
use rv_model::{ControlRegister, CsrInstr, Field, OUTPUT_SIZE, Reg, Scalar, StepEnd};
use vector_memory::UserBytes;

/// Access of the control register with the number `csr`.
#[derive(Clone, Copy)]
struct ControlAccess {
    csr: Field<12>,
    op: CsrOp,
    rd: Reg,
    /// The number of the source register, or the immediate.
    source: u32,
    operand: u64,
}

impl ControlAccess {
    /// Return the control register; `None` if the access is illegal. It is illegal if there is no such
    /// register, or if it writes a read-only one.
    fn register(&self) -> Option<ControlRegister>
        ensures some { IfSome result (λ register. control_register self.now.csr ≡ Some register) }
        ensures legal { IfSome result (λ register.
            touches_control (control_register self.now.csr) self.now.op self.now.source ≡ true) }
        ensures illegal { IfNone result
            (touches_control (control_register self.now.csr) self.now.op self.now.source ≡ false) }
    {
        let register = ControlRegister::with_number(self.csr.value())?;
        if is_write(self.op, self.source) && register.is_read_only() {
            return None;
        }
        Some(register)
    }
}

/// Read a control register, and write it. CSRRS, CSRRC and their immediate forms don't write it if the source
/// is x0 or the immediate 0.
fn access_control<V: Vectors>(
    access: ControlAccess,
    word: u32,
    scalar: &mut Scalar,
    vectors: &mut V,
) -> StepEnd
    requires ready { V.ready vectors.old }
    ensures model { (memory : Memory) (policy : Policy)
        → Leads (csr_step (control_register access.csr) access.op access.rd access.source access.operand word)
        (hart_state scalar.old (V.lent vectors.old).state memory policy)
        (hart_state scalar.new (V.lent vectors.new).state memory policy) result 1 }
    ensures dirty { (V.lent vectors.new).dirty ≡ ((V.lent vectors.old).dirty
        || (touches_control (control_register access.csr) access.op access.source
        && is_write access.op access.source)) }
    ensures clean { (V.lent vectors.new).dirty ≡ false
        → (V.lent vectors.new).state ≡ (V.lent vectors.old).state }
    ensures configuration { touches_control (control_register access.csr) access.op access.source ≡ true
        → IsConfiguration (V.lent vectors.old).state.conf }
    ensures vectors { vectors.new
        ≡ (if touches_control (control_register access.csr) access.op access.source
        then V.back vectors.old (V.lent vectors.new) else vectors.old) }
    ensures ready { V.ready vectors.new }
{
    let Some(register) = access.register() else {
        return illegal(word, scalar);
    };
    let seat = vectors.seat();
    // For the proof only: the vector length is one that the vector type allows.
    seat.state.conf.length_law();
    let value = read(register, &seat.state);
    if is_write(access.op, access.source) {
        write(
            register,
            written_value(access.op, value, access.operand),
            &mut seat.state,
        );
        seat.dirty = true;
    }
    write_rd(access.rd, value, scalar)
}

/// Execute the instruction that a word with the opcode SYSTEM encodes. Return its one tick if it ran;
/// otherwise return 0, and save its end in `ending`.
#[tactic(auto, unfolding(rv_model::specs::step::Step::executed, rv_model::specs::step::Step::dirties))]
#[inline(never)]
pub(crate) fn execute_system<M: UserBytes, V: Vectors>(
    word: u32,
    scalar: &mut Scalar,
    memory: &M,
    vectors: &mut V,
    output: &mut ArrayVec<u8, OUTPUT_SIZE>,
    ending: &mut Ending,
) -> usize
    requires ready { V.ready vectors.old }
    requires opcode { bit_and word 0x7c ≡ 0x70 }
    ensures model { (limit : ℕ) (policy : Policy) → EndsBy (executed limit (scan table word) word)
        (hart_state scalar.old (V.lent vectors.old).state (M.memory memory.now) policy output.old.items)
        (hart_state scalar.new (V.lent vectors.new).state (M.memory memory.now) policy output.new.items)
        result ending.new }
    ensures vectors { (limit : ℕ) (policy : Policy) → Returns V.ready V.lent V.back
        (touches (scan table word)) (dirties limit (scan table word))
        (hart_state scalar.old (V.lent vectors.old).state (M.memory memory.now) policy) vectors.old vectors.new }
{
    if let Some(op) = decode_call(word) {
        return ending.in_one_tick(system(op, scalar, memory, output));
    }
    let decoded = decode_csr(word);
    let Some(instr) = &decoded else {
        return ending.in_one_tick(illegal(word, scalar));
    };
    let end = match *instr {
        CsrInstr::Register { op, rd, rs1, csr } => {
            let access = ControlAccess {
                csr,
                op,
                rd,
                source: rs1.number(),
                operand: scalar.read(rs1),
            };
            access_control(access, word, scalar, vectors)
        }
        CsrInstr::Immediate { op, rd, imm, csr } => {
            let access = ControlAccess {
                csr,
                op: csr_form(op),
                rd,
                source: imm.value(),
                operand: u64::from(imm.value()),
            };
            access_control(access, word, scalar, vectors)
        }
    };
    ending.in_one_tick(end)
}
