//! Instructions that use only scalar registers and memory.
ghost use Rattle.std.specs.Prelude.{◌≡◌, true};
ghost use Rattle.rv_decode.specs.Opcodes.{is_scalar};
ghost use Rattle.rv_model.specs.step.ScalarStep.{scalar_step};
ghost use Rattle.hart.specs.States.{LeadsScalar};

use crate::control_transfer::{branch_target, jump, jump_if, jump_target, register_target};
use crate::loads_and_stores::{access_address, load, store};
use crate::retirement::{retire, write_rd};
use rv_model::{Scalar, ScalarInstr, StepEnd};
use scalar_core::{
    alu, branch, i_immediate, register_immediate, s_immediate, shift_immediate,
    shift_immediate_word, upper_immediate,
};
use vector_memory::UserBytes;

/// Execute an instruction that uses only scalar registers and memory.
#[inline(always)]
pub(crate) fn execute_scalar<M: UserBytes>(
    instr: &ScalarInstr,
    scalar: &mut Scalar,
    memory: &mut M,
) -> StepEnd
    requires { is_scalar instr.now ≡ true }
    ensures model { LeadsScalar (scalar_step instr.now)
        scalar.old (M.memory memory.old) scalar.new (M.memory memory.new) result }
    ensures memory { memory.new ≡ M.with_memory memory.old (M.memory memory.new) }
{
    match *instr {
        ScalarInstr::Upper { op, rd, imm } => {
            let value = upper_immediate(op, scalar.pc, imm);
            write_rd(rd, value, scalar)
        }
        ScalarInstr::Jump { rd, imm } => jump(rd, jump_target(scalar.pc, imm), scalar),
        ScalarInstr::JumpRegister { rd, rs1, imm } => {
            jump(rd, register_target(scalar.read(rs1), imm), scalar)
        }
        ScalarInstr::Branch { op, rs1, rs2, imm } => {
            let taken = branch(op, scalar.read(rs1), scalar.read(rs2));
            jump_if(taken, branch_target(scalar.pc, imm), scalar)
        }
        ScalarInstr::Load { op, rd, rs1, imm } => {
            let addr = access_address(scalar.read(rs1), i_immediate(imm));
            load(op, rd, addr, scalar, memory)
        }
        ScalarInstr::Store { op, rs1, rs2, imm } => {
            let addr = access_address(scalar.read(rs1), s_immediate(imm));
            store(op, addr, scalar.read(rs2), scalar, memory)
        }
        ScalarInstr::RegisterImmediate { op, rd, rs1, imm } => {
            let value = register_immediate(op, scalar.read(rs1), imm);
            write_rd(rd, value, scalar)
        }
        ScalarInstr::ShiftImmediate { op, rd, rs1, shamt } => {
            let value = shift_immediate(op, scalar.read(rs1), shamt);
            write_rd(rd, value, scalar)
        }
        ScalarInstr::ShiftImmediateWord { op, rd, rs1, shamt } => {
            let value = shift_immediate_word(op, scalar.read(rs1), shamt);
            write_rd(rd, value, scalar)
        }
        ScalarInstr::RegisterRegister { op, rd, rs1, rs2 } => {
            let value = alu(op, scalar.read(rs1), scalar.read(rs2));
            write_rd(rd, value, scalar)
        }
        ScalarInstr::Fence { .. } => retire(scalar),
        ScalarInstr::System { .. } => unreachable!(),
    }
}
