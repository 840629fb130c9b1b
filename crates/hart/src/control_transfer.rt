//! Jumps and branches (Unprivileged ISA 20191213, section 2.5).
ghost use Rattle.std.specs.Prelude.{◌≡◌};
ghost use Rattle.std.specs.Int.{w64};
ghost use Rattle.rv_model.specs.scalar.ControlTransfer.{register_target};
ghost use Rattle.rv_model.specs.scalar.Arithmetic.{sum};
ghost use Rattle.rv_model.specs.instructions.Immediates.{b_immediate, j_immediate};
ghost use Rattle.rv_model.specs.step.ScalarStep.{branch_step, jump_step, jumps};
ghost use Rattle.hart.specs.States.{LeadsRegisters};

use crate::faults::fault;
use crate::retirement::retire;
use rv_model::{Cause, Field, Reg, Scalar, StepEnd};
use scalar_core::{b_immediate, i_immediate, j_immediate};

/// Return the target of JAL.
#[inline(always)]
pub(crate) fn jump_target(pc: u64, imm: Field<20>) -> u64
    ensures { result ≡ sum w64 pc (j_immediate imm) }
{
    pc.wrapping_add(j_immediate(imm))
}

/// Return the target of JALR; bit 0 is cleared.
#[inline(always)]
pub(crate) fn register_target(base: u64, imm: Field<12>) -> u64
    ensures { result ≡ register_target base imm }
{
    let target = base.wrapping_add(i_immediate(imm));
    target - target % 2
}

/// Return the target of a branch.
#[inline(always)]
pub(crate) fn branch_target(pc: u64, imm: Field<12>) -> u64
    ensures { result ≡ sum w64 pc (b_immediate imm) }
{
    pc.wrapping_add(b_immediate(imm))
}

/// Jump to `target`, and write the address of the next instruction to `rd`. If `target` isn't a multiple of
/// 4, the instruction faults and nothing changes.
#[inline(always)]
pub(crate) fn jump(rd: Reg, target: u64, scalar: &mut Scalar) -> StepEnd
    ensures model { LeadsRegisters (jump_step rd target) scalar.old scalar.new result }
{
    let link = scalar.pc.wrapping_add(4);
    if target % 4 != 0 {
        return fault(Cause::MisalignedTarget, target, scalar);
    }
    scalar.write(rd, link);
    scalar.pc = target;
    StepEnd::Ran
}

/// Branch to `target` if `taken`, and retire the instruction otherwise. If the branch is taken and `target`
/// isn't a multiple of 4, the instruction faults and nothing changes.
#[inline(always)]
pub(crate) fn jump_if(taken: bool, target: u64, scalar: &mut Scalar) -> StepEnd
    ensures model { LeadsRegisters (branch_step taken target) scalar.old scalar.new result }
{
    if !taken {
        return retire(scalar);
    }
    if target % 4 != 0 {
        return fault(Cause::MisalignedTarget, target, scalar);
    }
    scalar.pc = target;
    StepEnd::Ran
}
