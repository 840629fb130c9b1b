//! Values of single tokens: numbers and registers.
ghost use Rattle.std.specs.Prelude.{◌≡◌, ◌≤◌, ◌^◌};
ghost use Rattle.rv_model.specs.lending.Text.{capped};
ghost use Rattle.rv_model.specs.assembler.Numbers.{register, digits_in, number, at_most};

use rv_model::text::digits;

/// The number of a register with this letter: 0 to 31, in decimal without leading zeros.
pub(crate) fn register(letter: u8, text: &[u8]) -> Option<u32>
    ensures { result ≡ register letter text.now }
{
    match text {
        [first, a] if *first == letter && a.is_ascii_digit() => Some(u32::from(*a - b'0')),
        [first, a, b] if *first == letter && *a >= b'1' && *a <= b'3' && b.is_ascii_digit() => {
            let value = u32::from(*a - b'0') * 10 + u32::from(*b - b'0');
            if value < 32 { Some(value) } else { None }
        }
        _ => None,
    }
}

/// The value of one or more digits of a radix, or `cap` if it is larger.
fn digits_in(radix: u128, cap: u128, text: &[u8]) -> Option<u128>
    requires radix { 1 ≤ radix × radix ≤ 16 }
    requires cap { cap ≤ 2 ^ 64 }
    ensures { result ≡ capped cap (digits_in radix text.now) }
{
    if text.is_empty() {
        return None;
    }
    digits(radix, cap, text)
}

/// The value of a number in decimal, or in hexadecimal after `0x`, or `cap` if it is larger.
fn number(cap: u128, text: &[u8]) -> Option<u128>
    requires { cap ≤ 2 ^ 64 }
    ensures { result ≡ capped cap (number text.now) }
{
    match text {
        [b'0', b'x', hex @ ..] => digits_in(16, cap, hex),
        _ => digits_in(10, cap, text),
    }
}

/// The value of a number in decimal, or in hexadecimal after `0x`; `None` above `limit`.
pub(crate) fn number_up_to(limit: u32, text: &[u8]) -> Option<u32>
    ensures { result ≡ at_most limit (number text.now) }
{
    let value = number(u128::from(limit) + 1, text)?;
    if value <= u128::from(limit) {
        Some(value as u32)
    } else {
        None
    }
}
