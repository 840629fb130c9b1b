//! Instructions that fault.
ghost use Rattle.std.specs.Prelude.{◌≡◌};

use rv_model::{Cause, Scalar, StepEnd};

/// Return a fault of the instruction at the program counter; `value` is the address or the word that caused
/// it.
#[inline(always)]
pub(crate) fn fault(cause: Cause, value: u64, scalar: &Scalar) -> StepEnd
    ensures { result ≡ StepEnd.Fault cause scalar.now.pc value }
{
    StepEnd::Fault {
        cause,
        pc: scalar.pc,
        value,
    }
}

/// Return a fault for a word that isn't an instruction, or for an instruction that is illegal in this state.
#[inline(always)]
pub(crate) fn illegal(word: u32, scalar: &Scalar) -> StepEnd
    ensures { result ≡ StepEnd.Fault Cause.IllegalInstruction scalar.now.pc word }
{
    fault(Cause::IllegalInstruction, u64::from(word), scalar)
}
