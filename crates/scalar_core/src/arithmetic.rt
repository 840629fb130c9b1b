//! Operations of two registers (Unprivileged ISA 20191213, sections 2.4 and 5.2, and chapter 7).
ghost use Rattle.std.specs.Prelude.{◌≡◌};
ghost use Rattle.rv_model.specs.scalar.Arithmetic.{register_op_value};

use crate::extension::{low_word, sign_extend_word};
use crate::{division, product, shift};
use rv_model::instructions::operations::RegisterOp;

/// Return the 64-bit result of an operation on two registers' 64-bit words. Operations of 32 bits use the low
/// 32 bits and sign-extend the result; no operation traps (Unprivileged ISA 20191213, sections 2.4, 5.2, 7.1
/// and 7.2).
#[inline(always)]
pub fn alu(op: RegisterOp, a: u64, b: u64) -> u64
    ensures { result ≡ register_op_value op a b }
{
    let (a_word, b_word) = (low_word(a), low_word(b));
    match op {
        RegisterOp::Add => a.wrapping_add(b),
        RegisterOp::Sub => a.wrapping_sub(b),
        RegisterOp::Sll => shift::left(a, b),
        RegisterOp::Slt => u64::from(a.cast_signed() < b.cast_signed()),
        RegisterOp::Sltu => u64::from(a < b),
        RegisterOp::Xor => a ^ b,
        RegisterOp::Srl => shift::right(a, b),
        RegisterOp::Sra => shift::right_signed(a, b),
        RegisterOp::Or => a | b,
        RegisterOp::And => a & b,
        RegisterOp::Mul => a.wrapping_mul(b),
        RegisterOp::Mulh => product::high_signed(a, b),
        RegisterOp::Mulhsu => product::high_mixed(a, b),
        RegisterOp::Mulhu => product::high_unsigned(a, b),
        RegisterOp::Div => division::divide_signed(a, b),
        RegisterOp::Divu => division::divide(a, b),
        RegisterOp::Rem => division::remainder_signed(a, b),
        RegisterOp::Remu => division::remainder(a, b),
        RegisterOp::Addw => sign_extend_word(a_word.wrapping_add(b_word)),
        RegisterOp::Subw => sign_extend_word(a_word.wrapping_sub(b_word)),
        RegisterOp::Sllw => sign_extend_word(shift::left_word(a_word, b_word)),
        RegisterOp::Srlw => sign_extend_word(shift::right_word(a_word, b_word)),
        RegisterOp::Sraw => sign_extend_word(shift::right_signed_word(a_word, b_word)),
        RegisterOp::Mulw => sign_extend_word(a_word.wrapping_mul(b_word)),
        RegisterOp::Divw => sign_extend_word(division::divide_signed_word(a_word, b_word)),
        RegisterOp::Divuw => sign_extend_word(division::divide_word(a_word, b_word)),
        RegisterOp::Remw => sign_extend_word(division::remainder_signed_word(a_word, b_word)),
        RegisterOp::Remuw => sign_extend_word(division::remainder_word(a_word, b_word)),
    }
}
