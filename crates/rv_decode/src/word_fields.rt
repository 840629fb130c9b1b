//! Decoding of operands from an instruction's 32-bit word.
ghost use Rattle.std.specs.Prelude.{◌≡◌, ◌≤◌, ◌<◌, ◌+◌, ◌^◌};
ghost use Rattle.rv_model.specs.instructions.FixedBits.{field, flag};
ghost use Rattle.rv_model.specs.instructions.Immediates.{store_immediate, branch_offset, jump_offset};
ghost use Rattle.rv_model.specs.instructions.Operations.{source_of};

use rv_model::instructions::bits;
use rv_model::instructions::operations::Form;
use rv_model::{Field, Reg, Source, VReg};

/// The scalar register whose number starts at bit `low`.
pub(crate) fn reg(word: u32, low: u32) -> Reg
    requires { low + 5 ≤ 32 }
    ensures { result ≡ field low 5 word }
{
    Reg::new(bits(word, low, 5))
}

/// The vector register whose number starts at bit `low`.
#[inline(always)]
pub(crate) fn vreg(word: u32, low: u32) -> VReg
    requires { low + 5 ≤ 32 }
    ensures { result ≡ field low 5 word }
{
    VReg::new(bits(word, low, 5))
}

/// Whether a vector instruction is unmasked: its vm bit is 1.
#[inline(always)]
pub(crate) fn is_unmasked(word: u32) -> bool
    ensures { result ≡ flag word }
{
    bits(word, 25, 1) == 1
}

/// The second operand of a vector operation of this form.
#[inline(always)]
pub(crate) fn source(word: u32, form: Form) -> Source
    ensures { result ≡ source_of form (field 15 5 word) }
{
    match form {
        Form::V => Source::V(vreg(word, 15)),
        Form::X => Source::X(reg(word, 15)),
        Form::I => Source::I(Field::new(bits(word, 15, 5))),
    }
}

/// The immediate of a store.
pub(crate) fn store_immediate(word: u32) -> Field<12>
    ensures { result ≡ store_immediate word }
{
    Field::new(bits(word, 7, 5) + bits(word, 25, 7) * 32)
}

/// Bits 12 to 1 of the offset of a branch, in bytes.
pub(crate) fn branch_offset(word: u32) -> Field<12>
    ensures { result ≡ branch_offset word }
{
    let low = bits(word, 8, 4) + bits(word, 25, 6) * 16;
    Field::new(low + bits(word, 7, 1) * 1024 + bits(word, 31, 1) * 2048)
}

/// Bits 20 to 1 of the offset of a jump, in bytes.
pub(crate) fn jump_offset(word: u32) -> Field<20>
    ensures { result ≡ jump_offset word }
{
    let low = bits(word, 21, 10) + bits(word, 20, 1) * 1024;
    Field::new(low + bits(word, 12, 8) * 2048 + bits(word, 31, 1) * 524_288)
}
