//! The 64-bit values of immediates (Unprivileged ISA 20191213, sections 2.3 and 5.2).
ghost use Rattle.std.specs.Prelude.{◌≡◌};
ghost use Rattle.rv_model.specs.instructions.Immediates.{b_immediate, i_immediate, j_immediate, s_immediate};
ghost use Rattle.rv_model.specs.instructions.Immediates.{u_immediate};

use crate::extension::sign_extend;
use rv_model::Field;

/// Return the 12 bits of an I-immediate, sign-extended to 64 bits.
pub fn i_immediate(imm: Field<12>) -> u64
    ensures { result ≡ i_immediate imm }
{
    sign_extend(12, u64::from(imm.value()))
}

/// Return the 12 bits of an S-immediate, sign-extended to 64 bits.
pub fn s_immediate(imm: Field<12>) -> u64
    ensures { result ≡ s_immediate imm }
{
    i_immediate(imm)
}

/// Return a branch's distance in bytes, sign-extended to 64 bits, from its bits 12 to 1.
pub fn b_immediate(imm: Field<12>) -> u64
    ensures { result ≡ b_immediate imm }
{
    sign_extend(13, 2 * u64::from(imm.value()))
}

/// Return the 32-bit number with these upper 20 bits, sign-extended to 64 bits.
pub(crate) fn u_immediate(imm: Field<20>) -> u64
    ensures { result ≡ u_immediate imm }
{
    sign_extend(32, u64::from(imm.value()) * (1 << 12))
}

/// Return a jump's distance in bytes, sign-extended to 64 bits, from its bits 20 to 1.
pub fn j_immediate(imm: Field<20>) -> u64
    ensures { result ≡ j_immediate imm }
{
    sign_extend(21, 2 * u64::from(imm.value()))
}
