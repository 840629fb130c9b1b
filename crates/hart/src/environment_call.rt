//! Environment calls and breakpoints (Unprivileged ISA 20191213, section 2.8).
ghost use Rattle.rv_model.specs.step.ScalarStep.{environment_call, scalar_step};
ghost use Rattle.hart.specs.States.{LeadsOutput};

use crate::retirement::write_rd;
use crate::write_call::write;
use arrayvec::ArrayVec;
use rv_model::instructions::operations::SystemOp;
use rv_model::{OUTPUT_SIZE, Reg, Scalar, ScalarInstr, StepEnd};
use vector_memory::UserBytes;

/// Error number of an unknown call, returned negated: ENOSYS of Linux.
const NO_SUCH_CALL: u64 = 38;

/// Execute ECALL. As in Linux, a7 (x17) is the number of the call: 93 and 94 exit with the low 8 bits of a0
/// (x10) as status, 64 writes. Any other call returns an error in a0.
#[tactic(auto, unfolding(rv_model::specs::step::ScalarStep::environment_call))]
fn call_environment<M: UserBytes>(
    scalar: &mut Scalar,
    memory: &M,
    output: &mut ArrayVec<u8, OUTPUT_SIZE>,
) -> StepEnd
    ensures model { LeadsOutput environment_call scalar.old (M.memory memory.now) output.old.items
        scalar.new (M.memory memory.now) output.new.items result }
{
    let number = scalar.read(Reg::new(17));
    if number == 93 || number == 94 {
        return StepEnd::Exit((scalar.read(Reg::new(10)) % 256) as u8);
    }
    if number == 64 {
        return write(scalar, memory, output);
    }
    write_rd(Reg::new(10), NO_SUCH_CALL.wrapping_neg(), scalar)
}

/// Execute ECALL or EBREAK. EBREAK stops the program and leaves the program counter unchanged.
#[inline(always)]
pub(crate) fn system<M: UserBytes>(
    op: SystemOp,
    scalar: &mut Scalar,
    memory: &M,
    output: &mut ArrayVec<u8, OUTPUT_SIZE>,
) -> StepEnd
    ensures model { LeadsOutput (scalar_step (ScalarInstr.System op)) scalar.old (M.memory memory.now) output.old.items
        scalar.new (M.memory memory.now) output.new.items result }
{
    match op {
        SystemOp::Ecall => call_environment(scalar, memory, output),
        SystemOp::Ebreak => StepEnd::Ebreak,
    }
}
