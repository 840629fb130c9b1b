//! Rows of the table of mnemonics, found by name or by word.
ghost use Rattle.std.specs.Prelude.{ℕ, ◌≡◌, ◌≤◌, ◌<◌, ◌^◌, ◌+◌, ◌-◌, ◌++◌, length, replicate, IfSome, position};
ghost use Rattle.std.specs.Prelude.{unwrap_or, nat_eq, bit_and, slice_index};
ghost use Rattle.std.specs.Str.{bytes_eq};
ghost use Rattle.rv_model.specs.declared.assembler.mnemonics.TheConstants.{ROW_COUNT};
ghost use Rattle.rv_asm.specs.Spans.{spans};
ghost use Rattle.rv_model.specs.lending.NameTable.{fixed_mask, slots_of, row_named, row_of_word, row_at};
ghost use Rattle.rv_model.specs.lending.NameTable.{slots_at, bits_at};

use rv_model::assembler::forms::{
    BRANCH, CARRY_IMMEDIATE, CARRY_SCALAR, CARRY_VECTOR, CSR, CSR_IMMEDIATE, ELEMENT_INDEX, Form,
    IMMEDIATE, INDEXED, JUMP, LOAD, MASK_TO_SCALAR, MOVE_IMMEDIATE, MOVE_SCALAR, MOVE_TO_SCALAR,
    MOVE_VECTOR, MULTIPLY_ADD_SCALAR, MULTIPLY_ADD_VECTOR, PLAIN, REGISTER, SET_IVLI, SET_VLI,
    SHIFT, SHIFT_WORD, STORE, STRIDED, Slot, SourceKind, UNIT, UNMASKED_IMMEDIATE, UNMASKED_SCALAR,
    UNMASKED_UNIT, UNMASKED_VECTOR, UPPER, VECTOR_IMMEDIATE, VECTOR_SCALAR, VECTOR_UNARY,
    VECTOR_UNSIGNED, VECTOR_VECTOR, WHOLE_MOVE, WORD,
};
use rv_model::assembler::mnemonics::{MNEMONICS, Mnemonic, NAME_COUNT};

/// The slots of a form with v0 as an operand.
fn carry_slots(source: SourceKind) -> &'static [Slot]
    ensures slots { result.now ≡ slots_of (Form.Carry source) }
    ensures few { length result.now ≤ 8 }
{
    match source {
        SourceKind::Vector => &CARRY_VECTOR,
        SourceKind::Scalar => &CARRY_SCALAR,
        SourceKind::Immediate => &CARRY_IMMEDIATE,
    }
}

/// The slots of a form that is never masked.
fn unmasked_slots(source: SourceKind) -> &'static [Slot]
    ensures slots { result.now ≡ slots_of (Form.Unmasked source) }
    ensures few { length result.now ≤ 8 }
{
    match source {
        SourceKind::Vector => &UNMASKED_VECTOR,
        SourceKind::Scalar => &UNMASKED_SCALAR,
        SourceKind::Immediate => &UNMASKED_IMMEDIATE,
    }
}

/// The slots of a move's form.
fn move_slots(source: SourceKind) -> &'static [Slot]
    ensures slots { result.now ≡ slots_of (Form.Move source) }
    ensures few { length result.now ≤ 8 }
{
    match source {
        SourceKind::Vector => &MOVE_VECTOR,
        SourceKind::Scalar => &MOVE_SCALAR,
        SourceKind::Immediate => &MOVE_IMMEDIATE,
    }
}

/// The slots of a form.
pub(crate) fn slots_of(form: Form) -> &'static [Slot]
    ensures slots { result.now ≡ slots_of form }
    ensures few { length result.now ≤ 8 }
{
    match form {
        Form::Plain => &PLAIN,
        Form::Register => &REGISTER,
        Form::Immediate => &IMMEDIATE,
        Form::Shift => &SHIFT,
        Form::ShiftWord => &SHIFT_WORD,
        Form::Load => &LOAD,
        Form::Store => &STORE,
        Form::Branch => &BRANCH,
        Form::Jump => &JUMP,
        Form::Upper => &UPPER,
        Form::Csr => &CSR,
        Form::CsrImmediate => &CSR_IMMEDIATE,
        Form::SetVli => &SET_VLI,
        Form::SetIvli => &SET_IVLI,
        Form::VectorVector => &VECTOR_VECTOR,
        Form::VectorScalar => &VECTOR_SCALAR,
        Form::VectorImmediate => &VECTOR_IMMEDIATE,
        Form::VectorUnsigned => &VECTOR_UNSIGNED,
        Form::MultiplyAddVector => &MULTIPLY_ADD_VECTOR,
        Form::MultiplyAddScalar => &MULTIPLY_ADD_SCALAR,
        Form::Carry(source) => carry_slots(source),
        Form::Unmasked(source) => unmasked_slots(source),
        Form::Move(source) => move_slots(source),
        Form::MoveToScalar => &MOVE_TO_SCALAR,
        Form::WholeMove => &WHOLE_MOVE,
        Form::MaskToScalar => &MASK_TO_SCALAR,
        Form::VectorUnary => &VECTOR_UNARY,
        Form::ElementIndex => &ELEMENT_INDEX,
        Form::Unit => &UNIT,
        Form::UnmaskedUnit => &UNMASKED_UNIT,
        Form::Strided => &STRIDED,
        Form::Indexed => &INDEXED,
        Form::Word => &WORD,
    }
}

/// The mask of the bits that the mnemonic fixes: ones where the form has no operand.
#[tactic(auto, unfolding(rv_model::specs::lending::NameTable::fixed_mask))]
pub(crate) fn fixed_mask(form: Form) -> u32
    ensures { result ≡ fixed_mask (slots_of form) }
{
    match form {
        Form::Plain => 0xffff_ffff,
        Form::Register | Form::ShiftWord | Form::Carry(_) | Form::Unmasked(_) => 0xfe00_707f,
        Form::Immediate
        | Form::Load
        | Form::Store
        | Form::Branch
        | Form::Csr
        | Form::CsrImmediate => 0x0000_707f,
        Form::Shift
        | Form::VectorVector
        | Form::VectorScalar
        | Form::VectorImmediate
        | Form::VectorUnsigned
        | Form::MultiplyAddVector
        | Form::MultiplyAddScalar
        | Form::Strided
        | Form::Indexed => 0xfc00_707f,
        Form::Jump | Form::Upper => 0x0000_007f,
        Form::SetVli => 0x8000_707f,
        Form::SetIvli => 0xc000_707f,
        Form::Move(_) | Form::UnmaskedUnit => 0xfff0_707f,
        Form::MoveToScalar | Form::WholeMove => 0xfe0f_f07f,
        Form::MaskToScalar | Form::VectorUnary => 0xfc0f_f07f,
        Form::ElementIndex => 0xfdff_f07f,
        Form::Unit => 0xfdf0_707f,
        Form::Word => 0x0000_0000,
    }
}

/// A name padded with spaces to 16 bytes.
fn padded(name: &[u8]) -> [u8; 16]
    requires { length name.now ≤ 16 }
    ensures { result ≡ name.now ++ replicate (16 - length name.now) 32 }
{
    let mut bytes = [b' '; 16];
    bytes[..name.len()].copy_from_slice(name);
    bytes
}

/// The index of the first row with this name, which is padded with spaces.
fn row_padded(name: &[u8; 16]) -> Option<usize>
    ensures within { IfSome result (λ row. row < ROW_COUNT) }
    ensures first { result ≡ position (λ row. bytes_eq row.0 name.now) MNEMONICS }
{
    MNEMONICS.iter().position(|row| row.0 == *name)
}

/// The index of the first row with this name.
#[tactic(auto, unfolding(rv_model::specs::lending::NameTable::row_named))]
pub(crate) fn row_named(name: &[u8]) -> Option<usize>
    ensures within { IfSome result (λ row. row < ROW_COUNT) }
    ensures first { result ≡ row_named name.now }
{
    if name.len() > 16 {
        return None;
    }
    row_padded(&padded(name))
}

/// The index of the first row whose fixed bits match a word.
fn row_matching(word: u32) -> Option<usize>
    ensures within { IfSome result (λ row. row < ROW_COUNT) }
    ensures first { result
        ≡ position (λ row. nat_eq (bit_and word (fixed_mask (slots_of row.1))) row.2) MNEMONICS }
{
    MNEMONICS
        .iter()
        .position(|row| word & fixed_mask(row.1) == row.2)
}

/// The index of the first row whose fixed bits match a word. The last row, `.word`, matches a word
/// without a mnemonic.
pub(crate) fn row_of_word(word: u32) -> usize
    ensures within { result < ROW_COUNT }
    ensures first { result ≡ row_of_word word }
{
    row_matching(word).unwrap_or(NAME_COUNT)
}

/// A row of the table.
pub(crate) fn row_at(row: usize) -> Mnemonic
    requires { row < ROW_COUNT }
    ensures value { result ≡ row_at row }
    ensures ascii { (k : ℕ) → k < 16 → slice_index result.0 k < 128 }
    ensures room { result.2 + spans (slots_of result.1) < 2 ^ 32 }
{
    MNEMONICS[row]
}
