//! Operations on a register and an immediate (Unprivileged ISA 20191213, sections 2.4 and 5.2).
ghost use Rattle.std.specs.Prelude.{◌≡◌};
ghost use Rattle.rv_model.specs.instructions.Immediates.{i_immediate};
ghost use Rattle.rv_model.specs.scalar.Arithmetic.{immediate_op_form, register_op_value, shift_immediate_form};
ghost use Rattle.rv_model.specs.scalar.Arithmetic.{shift_immediate_word_form, upper_value};

use crate::arithmetic::alu;
use crate::immediates::{i_immediate, u_immediate};
use rv_model::Field;
use rv_model::instructions::operations::{
    ImmediateOp, RegisterOp, ShiftImmediateOp, ShiftImmediateWordOp, UpperOp,
};

/// Return the operation on two registers that an operation with a 12-bit immediate performs.
fn immediate_op_form(op: ImmediateOp) -> RegisterOp
    ensures { result ≡ immediate_op_form op }
{
    match op {
        ImmediateOp::Addi => RegisterOp::Add,
        ImmediateOp::Slti => RegisterOp::Slt,
        ImmediateOp::Sltiu => RegisterOp::Sltu,
        ImmediateOp::Xori => RegisterOp::Xor,
        ImmediateOp::Ori => RegisterOp::Or,
        ImmediateOp::Andi => RegisterOp::And,
        ImmediateOp::Addiw => RegisterOp::Addw,
    }
}

/// Return the shift by a register that a shift by a 6-bit immediate performs.
fn shift_immediate_form(op: ShiftImmediateOp) -> RegisterOp
    ensures { result ≡ shift_immediate_form op }
{
    match op {
        ShiftImmediateOp::Slli => RegisterOp::Sll,
        ShiftImmediateOp::Srli => RegisterOp::Srl,
        ShiftImmediateOp::Srai => RegisterOp::Sra,
    }
}

/// Return the 32-bit shift by a register that a 32-bit shift by a 5-bit immediate performs.
fn shift_immediate_word_form(op: ShiftImmediateWordOp) -> RegisterOp
    ensures { result ≡ shift_immediate_word_form op }
{
    match op {
        ShiftImmediateWordOp::Slliw => RegisterOp::Sllw,
        ShiftImmediateWordOp::Srliw => RegisterOp::Srlw,
        ShiftImmediateWordOp::Sraiw => RegisterOp::Sraw,
    }
}

/// Return the result of an operation on a register's 64-bit word and a sign-extended 12-bit immediate
/// (Unprivileged ISA 20191213, sections 2.4 and 5.2, "Integer Register-Immediate Instructions").
pub fn register_immediate(op: ImmediateOp, a: u64, imm: Field<12>) -> u64
    ensures { result ≡ register_op_value (immediate_op_form op) a (i_immediate imm) }
{
    alu(immediate_op_form(op), a, i_immediate(imm))
}

/// Return the result of a shift of a register's 64-bit word by 0 to 63 bits (Unprivileged ISA 20191213,
/// section 5.2).
pub fn shift_immediate(op: ShiftImmediateOp, a: u64, shamt: Field<6>) -> u64
    ensures { result ≡ register_op_value (shift_immediate_form op) a shamt }
{
    alu(shift_immediate_form(op), a, u64::from(shamt.value()))
}

/// Return the result of a shift of a register's low 32 bits by 0 to 31 bits, sign-extended to 64 bits
/// (Unprivileged ISA 20191213, section 5.2).
pub fn shift_immediate_word(op: ShiftImmediateWordOp, a: u64, shamt: Field<5>) -> u64
    ensures { result ≡ register_op_value (shift_immediate_word_form op) a shamt }
{
    alu(shift_immediate_word_form(op), a, u64::from(shamt.value()))
}

/// Return a 32-bit number with these upper 20 bits, sign-extended to 64 bits, for LUI; for AUIPC, its sum
/// with the program counter (Unprivileged ISA 20191213, sections 2.4 and 5.2).
pub fn upper_immediate(op: UpperOp, pc: u64, imm: Field<20>) -> u64
    ensures { result ≡ upper_value op pc imm }
{
    let value = u_immediate(imm);
    match op {
        UpperOp::Lui => value,
        UpperOp::Auipc => pc.wrapping_add(value),
    }
}
