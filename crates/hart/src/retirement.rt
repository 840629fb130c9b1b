//! Retirement of instructions: the register that they write, and the program counter (Unprivileged ISA
//! 20191213, section 2.1).
ghost use Rattle.std.specs.Prelude.{◌≡◌};
ghost use Rattle.rv_model.specs.scalar.Registers.{advanced, with_register};

use rv_model::{Reg, Scalar, StepEnd};

/// Retire an instruction: advance the program counter by 4.
#[inline(always)]
pub(crate) fn retire(scalar: &mut Scalar) -> StepEnd
    ensures end { result ≡ StepEnd.Ran }
    ensures scalar { scalar.new ≡ advanced scalar.old }
{
    scalar.pc = scalar.pc.wrapping_add(4);
    StepEnd::Ran
}

/// Write a value to the register `rd`, and retire the instruction.
#[inline(always)]
pub(crate) fn write_rd(rd: Reg, value: u64, scalar: &mut Scalar) -> StepEnd
    ensures end { result ≡ StepEnd.Ran }
    ensures scalar { scalar.new ≡ advanced (with_register rd value scalar.old) }
{
    scalar.write(rd, value);
    retire(scalar)
}
