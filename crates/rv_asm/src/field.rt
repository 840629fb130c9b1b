//! Bit fields of operands: encodes an operand in a word, and extracts it from a word.
ghost use Rattle.std.specs.Prelude.{◌≡◌, ◌≤◌, ◌<◌, ◌^◌, ◌+◌, ◌*◌, ◌%◌};
ghost use Rattle.rv_model.specs.lending.Slots.{value_count};
ghost use Rattle.rv_model.specs.assembler.Fields.{lowest, placed, value_of};
ghost use Rattle.rv_model.specs.instructions.Immediates.{store_immediate, branch_offset, jump_offset};
ghost use Rattle.rv_asm.specs.Spans.{span};

use rv_model::assembler::forms::{Place, SignedField, Slot, UnsignedField};
use rv_model::instructions::bits;

/// A value shifted left by `low` bits.
fn shifted(low: u32, value: u32) -> u32
    requires { low < 32 × value * 2 ^ low < 2 ^ 32 }
    ensures { result ≡ value * 2 ^ low }
{
    value << low
}

/// The lowest bit of a register's field.
fn lowest(place: Place) -> u32
    ensures value { result ≡ lowest place }
    ensures small { result ≤ 20 }
{
    match place {
        Place::Rd => 7,
        Place::Rs1 => 15,
        Place::Rs2 => 20,
    }
}

/// A register's number (5 bits) in its field.
fn register_bits(place: Place, value: u32) -> u32
    ensures value { result ≡ value % 2 ^ 5 * 2 ^ lowest place }
    ensures small { result ≤ 31 * 2 ^ lowest place }
{
    match place {
        Place::Rd => shifted(7, value % 32),
        Place::Rs1 => shifted(15, value % 32),
        Place::Rs2 => shifted(20, value % 32),
    }
}

/// An unsigned immediate in its field.
fn unsigned_bits(field: UnsignedField, value: u32) -> u32
    ensures value { result ≡ placed (Slot.Unsigned field) value }
    ensures small { result ≤ span (Slot.Unsigned field) }
{
    match field {
        UnsignedField::Immediate => shifted(15, value % 32),
        UnsignedField::Shift => shifted(20, value % 64),
        UnsignedField::ShiftWord => shifted(20, value % 32),
        UnsignedField::Upper => shifted(12, value % 0x10_0000),
    }
}

/// The 12 bits of a store's offset in their two fields.
fn store_bits(offset: u32) -> u32
    ensures value { result ≡ placed (Slot.Signed SignedField.Store) offset }
    ensures small { result ≤ span (Slot.Signed SignedField.Store) }
{
    shifted(25, offset / 32 % 128) + shifted(7, offset % 32)
}

/// The 12 bits of a branch's offset, in units of two bytes, in their four fields.
fn branch_bits(offset: u32) -> u32
    ensures value { result ≡ placed (Slot.Signed SignedField.Branch) offset }
    ensures small { result ≤ span (Slot.Signed SignedField.Branch) }
{
    shifted(31, offset / 2048 % 2)
        + shifted(25, offset / 16 % 64)
        + shifted(8, offset % 16)
        + shifted(7, offset / 1024 % 2)
}

/// The 20 bits of a jump's offset, in units of two bytes, in their four fields.
fn jump_bits(offset: u32) -> u32
    ensures value { result ≡ placed (Slot.Signed SignedField.Jump) offset }
    ensures small { result ≤ span (Slot.Signed SignedField.Jump) }
{
    shifted(31, offset / 0x8_0000 % 2)
        + shifted(21, offset % 1024)
        + shifted(20, offset / 1024 % 2)
        + shifted(12, offset / 2048 % 256)
}

/// A signed immediate, given by its two's complement bits, in its field.
fn signed_bits(field: SignedField, value: u32) -> u32
    ensures value { result ≡ placed (Slot.Signed field) value }
    ensures small { result ≤ span (Slot.Signed field) }
{
    match field {
        SignedField::Vector => shifted(15, value % 32),
        SignedField::Immediate => shifted(20, value % 4096),
        SignedField::Store => store_bits(value),
        SignedField::Branch => branch_bits(value),
        SignedField::Jump => jump_bits(value),
    }
}

/// The bits that an operand adds to a word.
pub(crate) fn placed(slot: &Slot, value: u32) -> u32
    ensures value { result ≡ placed slot.now value }
    ensures small { result ≤ span slot.now }
{
    match slot {
        Slot::Comma | Slot::Open | Slot::Close | Slot::V0 => 0,
        Slot::Scalar(place) => register_bits(*place, value),
        Slot::Vector(place) => register_bits(*place, value),
        Slot::Unsigned(field) => unsigned_bits(*field, value),
        Slot::Signed(field) => signed_bits(*field, value),
        Slot::Csr => shifted(20, value % 4096),
        Slot::VectorType => shifted(20, value % 2048),
        Slot::ShortVectorType => shifted(20, value % 1024),
        Slot::Mask => shifted(25, value % 2),
        Slot::Word => value,
    }
}

/// The unsigned immediate of a word.
fn unsigned_value(unsigned: UnsignedField, word: u32) -> u32
    ensures value { result ≡ value_of (Slot.Unsigned unsigned) word }
    ensures small { result < value_count (Slot.Unsigned unsigned) }
{
    match unsigned {
        UnsignedField::Immediate => bits(word, 15, 5),
        UnsignedField::Shift => bits(word, 20, 6),
        UnsignedField::ShiftWord => bits(word, 20, 5),
        UnsignedField::Upper => bits(word, 12, 20),
    }
}

/// The 12 bits of a store's offset.
fn store_immediate(word: u32) -> u32
    ensures value { result ≡ store_immediate word }
    ensures small { result < 2 ^ 12 }
{
    bits(word, 7, 5) + bits(word, 25, 7) * 32
}

/// The 12 bits of a branch's offset, in units of two bytes.
fn branch_offset(word: u32) -> u32
    ensures value { result ≡ branch_offset word }
    ensures small { result < 2 ^ 12 }
{
    bits(word, 8, 4) + bits(word, 25, 6) * 16 + bits(word, 7, 1) * 1024 + bits(word, 31, 1) * 2048
}

/// The 20 bits of a jump's offset, in units of two bytes.
fn jump_offset(word: u32) -> u32
    ensures value { result ≡ jump_offset word }
    ensures small { result < 2 ^ 20 }
{
    bits(word, 21, 10)
        + bits(word, 20, 1) * 1024
        + bits(word, 12, 8) * 2048
        + bits(word, 31, 1) * 0x8_0000
}

/// The two's complement bits of the signed immediate of a word.
fn signed_value(signed: SignedField, word: u32) -> u32
    ensures value { result ≡ value_of (Slot.Signed signed) word }
    ensures small { result < value_count (Slot.Signed signed) }
{
    match signed {
        SignedField::Vector => bits(word, 15, 5),
        SignedField::Immediate => bits(word, 20, 12),
        SignedField::Store => store_immediate(word),
        SignedField::Branch => branch_offset(word),
        SignedField::Jump => jump_offset(word),
    }
}

/// The operand of a word for a slot; 0 for a slot without an operand.
pub(crate) fn value_of(slot: &Slot, word: u32) -> u32
    ensures value { result ≡ value_of slot.now word }
    ensures small { result < value_count slot.now }
{
    match slot {
        Slot::Comma | Slot::Open | Slot::Close | Slot::V0 => 0,
        Slot::Scalar(place) => bits(word, lowest(*place), 5),
        Slot::Vector(place) => bits(word, lowest(*place), 5),
        Slot::Unsigned(unsigned) => unsigned_value(*unsigned, word),
        Slot::Signed(signed) => signed_value(*signed, word),
        Slot::Csr => bits(word, 20, 12),
        Slot::VectorType => bits(word, 20, 11),
        Slot::ShortVectorType => bits(word, 20, 10),
        Slot::Mask => bits(word, 25, 1),
        Slot::Word => word,
    }
}
