//! Prints the canonical text of each operand.
ghost use Rattle.std.specs.Prelude.{◌≡◌, ◌≤◌, ◌<◌, ◌^◌, ◌+◌, ◌-◌, ◌*◌, ◌++◌, ℕ, Some, decimal, slice_index};
ghost use Rattle.arrayvec.specs.ArrayString.{array_string_len};
ghost use Rattle.rv_model.specs.assembler.Numbers.{hex_digit, hex_digits};
ghost use Rattle.rv_model.specs.assembler.Slots.{vtype_named, vtype_text, signed_text, printed};
ghost use Rattle.rv_model.specs.lending.Slots.{value_count};
ghost use Rattle.rv_model.specs.lending.NameTable.{unpadded};

use crate::read::{half, step};
use arrayvec::ArrayString;
use itoa::Buffer;
use rv_model::assembler::forms::Slot;
use rv_model::{ControlRegister, Lmul, Sew, VType};

/// Buffer of 160 bytes, enough for the canonical text of any word.
pub type Text = ArrayString<160>;

/// Appends a number in decimal, at most 10 digits.
fn put_decimal(n: u32, out: &mut Text)
    requires { array_string_len out.old + 10 ≤ 160 }
    ensures bytes { out.new.bytes ≡ out.old.bytes ++ decimal n }
    ensures grows { array_string_len out.new ≤ array_string_len out.old + 10 }
{
    let mut buffer = Buffer::new();
    out.push_str(buffer.format(n));
}

/// Appends a signed number, given by its two's complement bits in units of `step`. Values from `half`
/// on are negative.
fn put_signed(step: u32, half: u32, value: u32, out: &mut Text)
    requires room { array_string_len out.old + 16 ≤ 160 }
    requires step { step ≤ 2 }
    requires half { half < 2 ^ 30 }
    requires fits { value < 2 * half }
    ensures bytes { out.new.bytes ≡ out.old.bytes ++ signed_text step half value }
    ensures grows { array_string_len out.new ≤ array_string_len out.old + 16 }
{
    if value < half {
        put_decimal(step * value, out);
    } else {
        out.push_str("-");
        put_decimal(step * (2 * half - value), out);
    }
}

/// The hexadecimal digit of a number below 16, in lower case.
fn hex_digit(digit: u32) -> char
    requires { digit < 16 }
    ensures value { result ≡ hex_digit digit }
    ensures ascii { result < 128 }
{
    if digit < 10 {
        char::from(b'0' + digit as u8)
    } else {
        char::from(b'a' + (digit - 10) as u8)
    }
}

/// Appends the lowest `count` hexadecimal digits of a number.
#[tactic(auto, unfolding(rv_model::specs::assembler::Numbers::hex_digits))]
fn put_hex_digits(count: usize, value: u32, out: &mut Text)
    requires { array_string_len out.old + count ≤ 160 }
    ensures bytes { out.new.bytes ≡ out.old.bytes ++ hex_digits count value }
    ensures grows { array_string_len out.new ≡ array_string_len out.old + count }
{
    if count > 0 {
        put_hex_digits(count - 1, value / 16, out);
        out.push(hex_digit(value % 16));
    }
}

/// Appends the name of a control register, or its number if it has none.
fn put_csr(csr: u32, out: &mut Text)
    requires { array_string_len out.old + 16 ≤ 160 }
    ensures bytes { out.new.bytes ≡ out.old.bytes ++ printed Slot.Csr csr }
    ensures grows { array_string_len out.new ≤ array_string_len out.old + 16 }
{
    match ControlRegister::with_number(csr) {
        Some(register) => out.push_str(register.name()),
        None => put_decimal(csr, out),
    }
}

/// Appends the names of vtype's fields, for this element width and group multiplier.
fn put_type_names(sew: Sew, lmul: Lmul, vtype: u32, out: &mut Text)
    requires { array_string_len out.old + 16 ≤ 160 }
    ensures bytes { out.new.bytes ≡ out.old.bytes ++ vtype_named (Some sew) (Some lmul) vtype }
    ensures grows { array_string_len out.new ≤ array_string_len out.old + 16 }
{
    out.push_str(sew.name());
    out.push_str(", ");
    out.push_str(lmul.name());
    out.push_str(", ");
    out.push_str(VType::tail_name(vtype / 64 % 2 == 1));
    out.push_str(", ");
    out.push_str(VType::mask_name(vtype / 128 % 2 == 1));
}

/// Appends the names of vtype's fields, or vtype as a number if a field is reserved or a bit from 8 up
/// is set.
fn put_vtype(vtype: u32, out: &mut Text)
    requires { array_string_len out.old + 16 ≤ 160 }
    ensures bytes { out.new.bytes ≡ out.old.bytes ++ vtype_text vtype }
    ensures grows { array_string_len out.new ≤ array_string_len out.old + 16 }
{
    if vtype < 256
        && let Some(sew) = Sew::with_number((vtype / 8 % 8) as u8)
        && let Some(lmul) = Lmul::with_number((vtype % 8) as u8)
    {
        put_type_names(sew, lmul, vtype, out);
    } else {
        put_decimal(vtype, out);
    }
}

/// Appends the canonical text of a slot with this value.
pub(crate) fn put_slot(slot: &Slot, value: u32, out: &mut Text)
    requires room { array_string_len out.old + 16 ≤ 160 }
    requires fits { value < value_count slot.now }
    ensures bytes { out.new.bytes ≡ out.old.bytes ++ printed slot.now value }
    ensures grows { array_string_len out.new ≤ array_string_len out.old + 16 }
{
    match slot {
        Slot::Comma => out.push_str(", "),
        Slot::Open => out.push_str("("),
        Slot::Close => out.push_str(")"),
        Slot::V0 => out.push_str("v0"),
        Slot::Scalar(_) => {
            out.push_str("x");
            put_decimal(value, out);
        }
        Slot::Vector(_) => {
            out.push_str("v");
            put_decimal(value, out);
        }
        Slot::Unsigned(_) => put_decimal(value, out),
        Slot::Signed(field) => put_signed(step(*field), half(*field), value, out),
        Slot::Csr => put_csr(value, out),
        Slot::VectorType | Slot::ShortVectorType => put_vtype(value, out),
        Slot::Mask => {
            if value == 0 {
                out.push_str(", v0.t");
            }
        }
        Slot::Word => {
            out.push_str("0x");
            put_hex_digits(8, value, out);
        }
    }
}

/// Appends a mnemonic without the spaces after it.
pub(crate) fn put_name(name: &[u8; 16], out: &mut Text)
    requires room { array_string_len out.old + 16 ≤ 160 }
    requires ascii { (k : ℕ) → k < 16 → slice_index name.now k < 128 }
    ensures bytes { out.new.bytes ≡ out.old.bytes ++ unpadded name.now }
    ensures grows { array_string_len out.new ≤ array_string_len out.old + 16 }
{
    for byte in name {
        if *byte == b' ' {
            break;
        }
        out.push(char::from(*byte));
    }
}
