//! Reads and writes elements as whole numbers, and bits of masks, byte by byte.
ghost use Rattle.std.specs.Prelude.{◌<◌};

use crate::operands::LONGEST;

/// Two to a power.
pub(crate) fn power(exponent: u32) -> i128 {
    1 << (exponent % 128)
}

/// The index of a byte of the element at an index; elements have `bits` bits.
fn place(bits: u32, index: usize, byte: usize) -> usize
    ensures { result < 520 }
{
    (bits as usize / 8).wrapping_mul(index).wrapping_add(byte) % LONGEST
}

/// The unsigned element of `bits` bits at an index; its first byte is the lowest.
pub(crate) fn unsigned(bytes: &[u8; LONGEST], bits: u32, index: usize) -> i128 {
    let mut number = 0;
    for byte in 0..bits / 8 {
        let next = bytes[place(bits, index, byte as usize)];
        number |= i128::from(next) << (8 * byte % 128);
    }
    number
}

/// An unsigned number of `bits` bits, interpreted in two's complement.
pub(crate) fn two_complement(number: i128, bits: u32) -> i128 {
    if number >> (bits.wrapping_sub(1) % 128) & 1 == 1 {
        number.wrapping_sub(power(bits))
    } else {
        number
    }
}

/// The signed element at an index, in two's complement.
pub(crate) fn signed(bytes: &[u8; LONGEST], bits: u32, index: usize) -> i128 {
    two_complement(unsigned(bytes, bits, index), bits)
}

/// A number modulo two to the width.
pub(crate) fn low_bits(number: i128, bits: u32) -> i128 {
    number & power(bits).wrapping_sub(1)
}

/// The nearest unsigned number of `bits` bits.
pub(crate) fn nearest_unsigned(number: i128, bits: u32) -> i128 {
    number.max(0).min(power(bits).wrapping_sub(1))
}

/// The nearest signed number of `bits` bits.
pub(crate) fn nearest_signed(number: i128, bits: u32) -> i128 {
    let limit = power(bits.wrapping_sub(1));
    number.max(limit.wrapping_neg()).min(limit.wrapping_sub(1))
}

/// The distance of a shift of a number of `bits` bits: the low bits of the amount.
pub(crate) fn shift(amount: i128, bits: u32) -> u32
    ensures { result < 64 }
{
    (amount.cast_unsigned() % 64) as u32 % bits.max(1)
}

/// A bit of a mask.
pub(crate) fn bit_at(mask: &[u8; 32], index: usize) -> bool {
    mask[index / 8 % 32] & (1 << (index % 8)) != 0
}

/// Replaces a bit.
fn put_bit(bytes: &mut [u8; LONGEST], index: usize, bit: bool) {
    let place = 1 << (index % 8);
    let byte = &mut bytes[index / 8 % 32];
    if bit {
        *byte |= place;
    } else {
        *byte &= !place;
    }
}

/// Replaces the element at an index with the low bits of a number; an element of a mask is one bit.
pub(crate) fn put(bytes: &mut [u8; LONGEST], bits: u32, index: usize, number: i128) {
    if bits == 1 {
        put_bit(bytes, index, number & 1 == 1);
        return;
    }
    for byte in 0..bits / 8 {
        let next = (number >> (8 * byte % 128)).cast_unsigned() % 256;
        bytes[place(bits, index, byte as usize)] = next as u8;
    }
}
