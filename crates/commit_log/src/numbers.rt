//! Numbers in the form that a line shows.
ghost use Rattle.std.specs.Prelude.{◌≡◌, ◌++◌, ◌+◌, ◌<◌, ◌≤◌, length, decimal, reverse};
ghost use Rattle.hex.specs.Hex.{encode_lower};
ghost use Rattle.rv_model.specs.commands.Printing.{hex8, hex16};
ghost use Rattle.commit_log.specs.LineTexts.{highest_first, two_places};

use crate::text::{TEXT_SIZE, Text};
use itoa::Buffer;
use rv_model::VLENB;
use std::simd::prelude::*;

/// Index of the byte that each of 16 digits belongs to.
const PLACES_16: [usize; 16] = [0, 0, 1, 1, 2, 2, 3, 3, 4, 4, 5, 5, 6, 6, 7, 7];

/// 0 for the high digit of a byte, 1 for the low digit.
const PARTS_16: [u8; 16] = [0, 1, 0, 1, 0, 1, 0, 1, 0, 1, 0, 1, 0, 1, 0, 1];

/// Return the hexadecimal digits of 8 bytes, two for each byte.
#[inline(always)]
fn digits_of_8(bytes: &[u8]) -> [u8; 16]
    requires { length bytes.now ≡ 8 }
    ensures { result ≡ encode_lower bytes.now }
{
    let twice = u8x8::from_array([
        bytes[0], bytes[1], bytes[2], bytes[3], bytes[4], bytes[5], bytes[6], bytes[7],
    ])
    .swizzle(PLACES_16);
    let numbers = u8x16::from_array(PARTS_16)
        .simd_eq(u8x16::splat(0))
        .select(twice >> u8x16::splat(4), twice & u8x16::splat(15));
    let offsets = numbers
        .simd_lt(u8x16::splat(10))
        .select(u8x16::splat(b'0'), u8x16::splat(b'a' - 10));
    (numbers + offsets).to_array()
}

/// Append a number in 16 hexadecimal digits, the highest first.
#[tactic(auto, unfolding(rv_model::specs::commands::Printing::hex16))]
#[inline(always)]
pub(crate) fn push_hex16(text: &mut Text, number: u64)
    requires { length text.old + 16 ≤ TEXT_SIZE }
    ensures text { text.new ≡ text.old ++ hex16 number }
    ensures bound { length text.new ≡ length text.old + 16 }
{
    text.push(&digits_of_8(&number.to_be_bytes()));
}

/// Append a number in 8 hexadecimal digits, the highest first.
#[inline(always)]
pub(crate) fn push_hex8(text: &mut Text, number: u32)
    requires { length text.old + 8 ≤ TEXT_SIZE }
    ensures text { text.new ≡ text.old ++ hex8 number }
    ensures bound { length text.new ≡ length text.old + 8 }
{
    text.push(&digits_of_8(&u64::from(number).to_be_bytes())[8..]);
}

/// Return 8 bytes in reverse order.
#[inline(always)]
fn reversed_8(bytes: &[u8]) -> [u8; 8]
    requires { length bytes.now ≡ 8 }
    ensures { result ≡ reverse bytes.now }
{
    [
        bytes[7], bytes[6], bytes[5], bytes[4], bytes[3], bytes[2], bytes[1], bytes[0],
    ]
}

/// Append two hexadecimal digits for each of 8 bytes, the last byte first.
#[inline(always)]
fn push_8(text: &mut Text, bytes: &[u8])
    requires size { length bytes.now ≡ 8 }
    requires room { length text.old + 16 ≤ TEXT_SIZE }
    ensures text { text.new ≡ text.old ++ highest_first bytes.now }
    ensures bound { length text.new ≡ length text.old + 16 }
{
    text.push(&digits_of_8(&reversed_8(bytes)));
}

/// Append two hexadecimal digits for each of 4 bytes, the last byte first. They are the last 8 of the digits of 8 bytes.
#[inline(always)]
fn push_4(text: &mut Text, bytes: &[u8])
    requires size { length bytes.now ≡ 4 }
    requires room { length text.old + 8 ≤ TEXT_SIZE }
    ensures text { text.new ≡ text.old ++ highest_first bytes.now }
    ensures bound { length text.new ≡ length text.old + 8 }
{
    let reversed = [0, 0, 0, 0, bytes[3], bytes[2], bytes[1], bytes[0]];
    text.push(&digits_of_8(&reversed)[8..]);
}

/// Append two hexadecimal digits for each of at most 8 bytes, the last byte first, for any number of bytes.
#[inline(never)]
fn push_few(text: &mut Text, bytes: &[u8])
    requires size { length bytes.now ≤ 8 }
    requires room { length text.old + 16 ≤ TEXT_SIZE }
    ensures text { text.new ≡ text.old ++ highest_first bytes.now }
    ensures bound { length text.new ≤ length text.old + 16 }
{
    let size = bytes.len();
    let mut reversed = [0; 8];
    reversed[..size].copy_from_slice(bytes);
    reversed[..size].reverse();
    let mut digits = [0; 16];
    let _ = hex::encode_to_slice(&reversed[..size], &mut digits[..2 * size]);
    text.push(&digits[..2 * size]);
}

/// Append two hexadecimal digits for each of at most 8 bytes, the last byte first.
#[inline(always)]
pub(crate) fn push_reversed(text: &mut Text, bytes: &[u8])
    requires size { length bytes.now ≤ 8 }
    requires room { length text.old + 16 ≤ TEXT_SIZE }
    ensures text { text.new ≡ text.old ++ highest_first bytes.now }
    ensures bound { length text.new ≤ length text.old + 16 }
{
    match bytes.len() {
        4 => push_4(text, bytes),
        8 => push_8(text, bytes),
        _ => push_few(text, bytes),
    }
}

/// Append the 64 hexadecimal digits of a vector register, the last byte first.
#[inline(always)]
pub(crate) fn push_register(text: &mut Text, bytes: &[u8])
    requires size { length bytes.now ≡ VLENB }
    requires room { length text.old + 64 ≤ TEXT_SIZE }
    ensures text { text.new ≡ text.old ++ highest_first bytes.now }
    ensures bound { length text.new ≡ length text.old + 64 }
{
    push_8(text, &bytes[24..32]);
    push_8(text, &bytes[16..24]);
    push_8(text, &bytes[8..16]);
    push_8(text, &bytes[0..8]);
}

/// Append the number of a register in two columns.
#[inline(always)]
pub(crate) fn push_number(text: &mut Text, number: u32)
    requires number { number < 32 }
    requires room { length text.old + 2 ≤ TEXT_SIZE }
    ensures text { text.new ≡ text.old ++ two_places number }
    ensures bound { length text.new ≡ length text.old + 2 }
{
    let digit = b'0' + (number % 10) as u8;
    if number < 10 {
        text.push(&[digit, b' ']);
    } else {
        text.push(&[b'0' + (number / 10) as u8, digit]);
    }
}

/// Append a decimal number.
#[inline(always)]
pub(crate) fn push_decimal(text: &mut Text, number: u64)
    requires { length text.old + 20 ≤ TEXT_SIZE }
    ensures text { text.new ≡ text.old ++ decimal number }
    ensures bound { length text.new ≤ length text.old + 20 }
{
    text.push(Buffer::new().format(number).as_bytes());
}
