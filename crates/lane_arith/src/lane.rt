//! Elements of 8, 16, 32 and 64 bits, as single elements and as SIMD vectors of 32 bytes.
ghost use Rattle.std.specs.Prelude.{◌≡◌, ◌+◌, ◌*◌, ◌/◌, ◌%◌, ◌^◌, ◌<◌, ◌≤◌, ◌==◌, ℕ, bit_and, bit_or, bit_xor, length};
ghost use Rattle.std.specs.Prelude.{nat_lt, not, slice_index, if◌then◌else◌};
ghost use Rattle.std.specs.Int.{Width, byte_at, bytes_low_first, cast_signed, w8, w16, w32, w64};
ghost use Rattle.std.proofs.Common.{refl, rules};
ghost use lib.ListN.{get_or};
ghost use Rattle.std.specs.Simd.Lanes.{put_chunk};
ghost use Rattle.rv_model.specs.declared.instructions.operations.BinaryOp.TheVariants.{Vadd, Vmul, Vsll, Vsub};
ghost use Rattle.rv_model.specs.elements.Elements.{element};
ghost use Rattle.rv_model.specs.vector.Groups.{width_bytes};
ghost use Rattle.rv_model.specs.elements.Formulas.{formula, ones, wrap};
ghost use mir.Val.{bits};

use byteorder::{ByteOrder, LittleEndian};
use std::simd::prelude::*;

/// An element of a vector register, of one of the four widths.
pub trait Lane: Copy + Drop {
    // The width in bits.
    ghost width: { Width };

    // The element as an unsigned number.
    ghost value: { Self → ℕ };

    /// The elements of 32 bytes, as a SIMD vector.
    type Vector: Copy + Drop;

    // The number of elements in 32 bytes.
    ghost count: { ℕ };

    // The element at an index of a SIMD vector, as an unsigned number.
    ghost lane: { Self.Vector → ℕ → ℕ };

    /// Load the element at an index of a list of bytes, in little-endian order.
    fn load(bytes: &[u8], index: usize) -> Self
        requires { width_bytes width * index + width_bytes width ≤ length bytes.now }
        ensures { value result ≡ element (width_bytes width) bytes.now index };

    /// Store the element at an index of a list of bytes, in little-endian order.
    fn store(self, bytes: &mut [u8], index: usize)
        requires { width_bytes width * index + width_bytes width ≤ length bytes.old }
        ensures { bytes.new ≡ put_chunk (width_bytes width * index) bytes.old
            (bytes_low_first 0 (width_bytes width) (value self)) };

    /// Return the element as an unsigned number, below 2 to the width.
    fn number(self) -> u64
        ensures value { result ≡ value self }
        ensures bound { value self < 2 ^ bits width };

    /// Return the element as a signed number, in two's complement.
    fn signed_number(self) -> i64
        ensures value { result ≡ cast_signed width (value self) }
        ensures bound { value self < 2 ^ bits width };

    /// Return the element that consists of the low bits of a number.
    fn low_bits(number: u64) -> Self
        ensures { value result ≡ number % 2 ^ bits width };

    /// Return the element with all bits set.
    fn all_ones() -> Self
        ensures { value result ≡ ones width };

    /// Return the width in bits: 8, 16, 32 or 64.
    fn bits() -> u32
        ensures { result ≡ bits width };

    /// Return the number of elements in 32 bytes: 32, 16, 8 or 4.
    fn count() -> usize
        ensures { result ≡ count };

    /// Convert 32 bytes to a vector of elements, in little-endian order.
    fn from_bytes(bytes: u8x32) -> Self::Vector
        ensures value { (i : ℕ) → i < count → lane result i ≡ element (width_bytes width) bytes i }
        ensures bound { (i : ℕ) → i < count → lane result i < 2 ^ bits width };

    /// Convert a vector of elements to 32 bytes, in little-endian order.
    fn to_bytes(elements: Self::Vector) -> u8x32
        ensures { (i m : ℕ) → i < count → m < width_bytes width →
            slice_index result (width_bytes width * i + m) ≡ byte_at m (lane elements i) };

    /// Return a vector with the same number in each element.
    fn repeated(number: Self) -> Self::Vector
        ensures { (i : ℕ) → i < count → lane result i ≡ value number };

    /// Return a mask: element i is 0 if bit i of `word` is clear, and not 0 if it is set.
    fn choose(word: u64) -> Self::Vector
        ensures { (i : ℕ) → i < count → (lane result i == 0) ≡ (word / 2 ^ i % 2 == 0) };

    /// Return the elements of `chosen` where the element of `mask` isn't 0, and those of `others` where it is.
    fn select(mask: Self::Vector, chosen: Self::Vector, others: Self::Vector) -> Self::Vector
        ensures { (i : ℕ) → i < count → lane result i ≡ (if lane mask i == 0 then lane others i else lane chosen i) };

    /// Return a mask: an element is not 0 if the element of `a` is less than that of `b`, as unsigned numbers, and
    /// else 0.
    fn less(a: Self::Vector, b: Self::Vector) -> Self::Vector
        ensures { (i : ℕ) → i < count → (lane result i == 0) ≡ not (nat_lt (lane a i) (lane b i)) };

    /// Return a mask: an element is not 0 if the elements of `a` and `b` are equal, and else 0.
    fn equal(a: Self::Vector, b: Self::Vector) -> Self::Vector
        ensures { (i : ℕ) → i < count → (lane result i == 0) ≡ not (lane a i == lane b i) };

    /// Return a bit for each element of a mask, the first element in bit 0, set if the element isn't 0.
    fn to_bits(mask: Self::Vector) -> u64
        ensures value { (i : ℕ) → i < count → (result / 2 ^ i % 2 == 0) ≡ (lane mask i == 0) }
        ensures bound { result < 2 ^ count };

    /// Return the sum of each pair of elements, modulo 2 to the width.
    fn sums(a: Self::Vector, b: Self::Vector) -> Self::Vector
        ensures { (i : ℕ) → i < count → lane result i ≡ wrap width (formula Vadd width (lane a i) (lane b i)) };

    /// Return the difference of each pair of elements, modulo 2 to the width.
    fn differences(a: Self::Vector, b: Self::Vector) -> Self::Vector
        ensures { (i : ℕ) → i < count → lane result i ≡ wrap width (formula Vsub width (lane a i) (lane b i)) };

    /// Return the product of each pair of elements, modulo 2 to the width.
    fn products(a: Self::Vector, b: Self::Vector) -> Self::Vector
        ensures { (i : ℕ) → i < count → lane result i ≡ wrap width (formula Vmul width (lane a i) (lane b i)) };

    /// Return the bitwise AND of each pair of elements.
    fn each_and(a: Self::Vector, b: Self::Vector) -> Self::Vector
        ensures { (i : ℕ) → i < count → lane result i ≡ bit_and (lane a i) (lane b i) };

    /// Return the bitwise OR of each pair of elements.
    fn each_or(a: Self::Vector, b: Self::Vector) -> Self::Vector
        ensures { (i : ℕ) → i < count → lane result i ≡ bit_or (lane a i) (lane b i) };

    /// Return the bitwise XOR of each pair of elements.
    fn each_xor(a: Self::Vector, b: Self::Vector) -> Self::Vector
        ensures { (i : ℕ) → i < count → lane result i ≡ bit_xor (lane a i) (lane b i) };

    /// Return each element of `a` shifted left by the low bits of its amount.
    fn each_shifted_left(a: Self::Vector, amounts: Self::Vector) -> Self::Vector
        ensures { (i : ℕ) → i < count → lane result i ≡ wrap width (formula Vsll width (lane a i) (lane amounts i)) };

    /// Return each element of `a` shifted right by the low bits of its amount; the upper bits become zeros.
    fn each_shifted_right(a: Self::Vector, amounts: Self::Vector) -> Self::Vector
        ensures { (i : ℕ) → i < count → lane result i ≡ lane a i / 2 ^ (lane amounts i % bits width) };

    // The width is at most 64 bits.
    ghost fits_64: { bits width ≤ 64 };

    // The elements fill the 32 bytes.
    ghost fills: { width_bytes width * count ≡ 32 };
}

// For each of 32 elements of 8 bits, its bit within a byte of a 32-bit mask; `PLACE_OF_BYTE` has the index of that
// byte.
const BIT_OF_BYTE: [u8; 32] = [
    1, 2, 4, 8, 16, 32, 64, 128, 1, 2, 4, 8, 16, 32, 64, 128, 1, 2, 4, 8, 16, 32, 64, 128, 1, 2, 4,
    8, 16, 32, 64, 128,
];

const PLACE_OF_BYTE: [usize; 32] = [
    0, 0, 0, 0, 0, 0, 0, 0, 1, 1, 1, 1, 1, 1, 1, 1, 2, 2, 2, 2, 2, 2, 2, 2, 3, 3, 3, 3, 3, 3, 3, 3,
];

// For each of 16 elements of 16 bits, its bit of a mask; the next tables have the bits for 8 elements of 32 bits
// and 4 elements of 64 bits.
const BIT_OF_HALF: [u16; 16] = [
    1, 2, 4, 8, 16, 32, 64, 128, 256, 512, 1024, 2048, 4096, 8192, 16384, 32768,
];

const BIT_OF_WORD: [u32; 8] = [1, 2, 4, 8, 16, 32, 64, 128];

const BIT_OF_LONG: [u64; 4] = [1, 2, 4, 8];

impl Lane for u8 {
    ghost width = { w8 };

    ghost value = { λ x. x };

    type Vector = u8x32;

    ghost count = { 32 };

    ghost lane = { λ elements i. get_or elements i 0 };

    ghost fits_64 = { Prim.search rules };

    ghost fills = { refl };

    fn load(bytes: &[u8], index: usize) -> u8 {
        bytes[index]
    }

    fn store(self, bytes: &mut [u8], index: usize) {
        bytes[index] = self;
    }

    fn number(self) -> u64 {
        u64::from(self)
    }

    fn signed_number(self) -> i64 {
        i64::from(self.cast_signed())
    }

    fn low_bits(number: u64) -> u8 {
        (number % (1 << 8)) as u8
    }

    fn all_ones() -> u8 {
        u8::MAX
    }

    fn bits() -> u32 {
        u8::BITS
    }

    fn count() -> usize {
        32
    }

    fn from_bytes(bytes: u8x32) -> u8x32 {
        bytes
    }

    fn to_bytes(elements: u8x32) -> u8x32 {
        elements
    }

    fn repeated(number: u8) -> u8x32 {
        u8x32::splat(number)
    }

    fn choose(word: u64) -> u8x32 {
        let bytes = u64x1::splat(word).to_le_bytes();
        bytes.swizzle(PLACE_OF_BYTE) & u8x32::from_array(BIT_OF_BYTE)
    }

    fn select(mask: u8x32, chosen: u8x32, others: u8x32) -> u8x32 {
        mask.simd_eq(u8x32::splat(0)).select(others, chosen)
    }

    fn less(a: u8x32, b: u8x32) -> u8x32 {
        a.simd_lt(b).select(u8x32::splat(u8::MAX), u8x32::splat(0))
    }

    fn equal(a: u8x32, b: u8x32) -> u8x32 {
        a.simd_eq(b).select(u8x32::splat(u8::MAX), u8x32::splat(0))
    }

    fn to_bits(mask: u8x32) -> u64 {
        mask.simd_ne(u8x32::splat(0)).to_bitmask()
    }

    fn sums(a: u8x32, b: u8x32) -> u8x32 {
        a + b
    }

    fn differences(a: u8x32, b: u8x32) -> u8x32 {
        a - b
    }

    fn products(a: u8x32, b: u8x32) -> u8x32 {
        a * b
    }

    fn each_and(a: u8x32, b: u8x32) -> u8x32 {
        a & b
    }

    fn each_or(a: u8x32, b: u8x32) -> u8x32 {
        a | b
    }

    fn each_xor(a: u8x32, b: u8x32) -> u8x32 {
        a ^ b
    }

    fn each_shifted_left(a: u8x32, amounts: u8x32) -> u8x32 {
        a << (amounts & u8x32::splat(7))
    }

    fn each_shifted_right(a: u8x32, amounts: u8x32) -> u8x32 {
        a >> (amounts & u8x32::splat(7))
    }
}

impl Lane for u16 {
    ghost width = { w16 };

    ghost value = { λ x. x };

    type Vector = u16x16;

    ghost count = { 16 };

    ghost lane = { λ elements i. get_or elements i 0 };

    ghost fits_64 = { Prim.search rules };

    ghost fills = { refl };

    fn load(bytes: &[u8], index: usize) -> u16 {
        LittleEndian::read_u16(&bytes[2 * index..])
    }

    fn store(self, bytes: &mut [u8], index: usize) {
        LittleEndian::write_u16(&mut bytes[2 * index..], self);
    }

    fn number(self) -> u64 {
        u64::from(self)
    }

    fn signed_number(self) -> i64 {
        i64::from(self.cast_signed())
    }

    fn low_bits(number: u64) -> u16 {
        (number % (1 << 16)) as u16
    }

    fn all_ones() -> u16 {
        u16::MAX
    }

    fn bits() -> u32 {
        u16::BITS
    }

    fn count() -> usize {
        16
    }

    fn from_bytes(bytes: u8x32) -> u16x16 {
        u16x16::from_le_bytes(bytes)
    }

    fn to_bytes(elements: u16x16) -> u8x32 {
        elements.to_le_bytes()
    }

    fn repeated(number: u16) -> u16x16 {
        u16x16::splat(number)
    }

    fn choose(word: u64) -> u16x16 {
        u16x16::splat((word % (1 << 16)) as u16) & u16x16::from_array(BIT_OF_HALF)
    }

    fn select(mask: u16x16, chosen: u16x16, others: u16x16) -> u16x16 {
        mask.simd_eq(u16x16::splat(0)).select(others, chosen)
    }

    fn less(a: u16x16, b: u16x16) -> u16x16 {
        a.simd_lt(b)
            .select(u16x16::splat(u16::MAX), u16x16::splat(0))
    }

    fn equal(a: u16x16, b: u16x16) -> u16x16 {
        a.simd_eq(b)
            .select(u16x16::splat(u16::MAX), u16x16::splat(0))
    }

    fn to_bits(mask: u16x16) -> u64 {
        mask.simd_ne(u16x16::splat(0)).to_bitmask()
    }

    fn sums(a: u16x16, b: u16x16) -> u16x16 {
        a + b
    }

    fn differences(a: u16x16, b: u16x16) -> u16x16 {
        a - b
    }

    fn products(a: u16x16, b: u16x16) -> u16x16 {
        a * b
    }

    fn each_and(a: u16x16, b: u16x16) -> u16x16 {
        a & b
    }

    fn each_or(a: u16x16, b: u16x16) -> u16x16 {
        a | b
    }

    fn each_xor(a: u16x16, b: u16x16) -> u16x16 {
        a ^ b
    }

    fn each_shifted_left(a: u16x16, amounts: u16x16) -> u16x16 {
        a << (amounts & u16x16::splat(15))
    }

    fn each_shifted_right(a: u16x16, amounts: u16x16) -> u16x16 {
        a >> (amounts & u16x16::splat(15))
    }
}

impl Lane for u32 {
    ghost width = { w32 };

    ghost value = { λ x. x };

    type Vector = u32x8;

    ghost count = { 8 };

    ghost lane = { λ elements i. get_or elements i 0 };

    ghost fits_64 = { Prim.search rules };

    ghost fills = { refl };

    fn load(bytes: &[u8], index: usize) -> u32 {
        LittleEndian::read_u32(&bytes[4 * index..])
    }

    fn store(self, bytes: &mut [u8], index: usize) {
        LittleEndian::write_u32(&mut bytes[4 * index..], self);
    }

    fn number(self) -> u64 {
        u64::from(self)
    }

    fn signed_number(self) -> i64 {
        i64::from(self.cast_signed())
    }

    fn low_bits(number: u64) -> u32 {
        (number % (1 << 32)) as u32
    }

    fn all_ones() -> u32 {
        u32::MAX
    }

    fn bits() -> u32 {
        u32::BITS
    }

    fn count() -> usize {
        8
    }

    fn from_bytes(bytes: u8x32) -> u32x8 {
        u32x8::from_le_bytes(bytes)
    }

    fn to_bytes(elements: u32x8) -> u8x32 {
        elements.to_le_bytes()
    }

    fn repeated(number: u32) -> u32x8 {
        u32x8::splat(number)
    }

    fn choose(word: u64) -> u32x8 {
        u32x8::splat((word % (1 << 32)) as u32) & u32x8::from_array(BIT_OF_WORD)
    }

    fn select(mask: u32x8, chosen: u32x8, others: u32x8) -> u32x8 {
        mask.simd_eq(u32x8::splat(0)).select(others, chosen)
    }

    fn less(a: u32x8, b: u32x8) -> u32x8 {
        a.simd_lt(b).select(u32x8::splat(u32::MAX), u32x8::splat(0))
    }

    fn equal(a: u32x8, b: u32x8) -> u32x8 {
        a.simd_eq(b).select(u32x8::splat(u32::MAX), u32x8::splat(0))
    }

    fn to_bits(mask: u32x8) -> u64 {
        mask.simd_ne(u32x8::splat(0)).to_bitmask()
    }

    fn sums(a: u32x8, b: u32x8) -> u32x8 {
        a + b
    }

    fn differences(a: u32x8, b: u32x8) -> u32x8 {
        a - b
    }

    fn products(a: u32x8, b: u32x8) -> u32x8 {
        a * b
    }

    fn each_and(a: u32x8, b: u32x8) -> u32x8 {
        a & b
    }

    fn each_or(a: u32x8, b: u32x8) -> u32x8 {
        a | b
    }

    fn each_xor(a: u32x8, b: u32x8) -> u32x8 {
        a ^ b
    }

    fn each_shifted_left(a: u32x8, amounts: u32x8) -> u32x8 {
        a << (amounts & u32x8::splat(31))
    }

    fn each_shifted_right(a: u32x8, amounts: u32x8) -> u32x8 {
        a >> (amounts & u32x8::splat(31))
    }
}

impl Lane for u64 {
    ghost width = { w64 };

    ghost value = { λ x. x };

    type Vector = u64x4;

    ghost count = { 4 };

    ghost lane = { λ elements i. get_or elements i 0 };

    ghost fits_64 = { Prim.search rules };

    ghost fills = { refl };

    fn load(bytes: &[u8], index: usize) -> u64 {
        LittleEndian::read_u64(&bytes[8 * index..])
    }

    fn store(self, bytes: &mut [u8], index: usize) {
        LittleEndian::write_u64(&mut bytes[8 * index..], self);
    }

    fn number(self) -> u64 {
        self
    }

    fn signed_number(self) -> i64 {
        self.cast_signed()
    }

    fn low_bits(number: u64) -> u64 {
        number
    }

    fn all_ones() -> u64 {
        u64::MAX
    }

    fn bits() -> u32 {
        u64::BITS
    }

    fn count() -> usize {
        4
    }

    fn from_bytes(bytes: u8x32) -> u64x4 {
        u64x4::from_le_bytes(bytes)
    }

    fn to_bytes(elements: u64x4) -> u8x32 {
        elements.to_le_bytes()
    }

    fn repeated(number: u64) -> u64x4 {
        u64x4::splat(number)
    }

    fn choose(word: u64) -> u64x4 {
        u64x4::splat(word) & u64x4::from_array(BIT_OF_LONG)
    }

    fn select(mask: u64x4, chosen: u64x4, others: u64x4) -> u64x4 {
        mask.simd_eq(u64x4::splat(0)).select(others, chosen)
    }

    fn less(a: u64x4, b: u64x4) -> u64x4 {
        a.simd_lt(b).select(u64x4::splat(u64::MAX), u64x4::splat(0))
    }

    fn equal(a: u64x4, b: u64x4) -> u64x4 {
        a.simd_eq(b).select(u64x4::splat(u64::MAX), u64x4::splat(0))
    }

    fn to_bits(mask: u64x4) -> u64 {
        mask.simd_ne(u64x4::splat(0)).to_bitmask()
    }

    fn sums(a: u64x4, b: u64x4) -> u64x4 {
        a + b
    }

    fn differences(a: u64x4, b: u64x4) -> u64x4 {
        a - b
    }

    fn products(a: u64x4, b: u64x4) -> u64x4 {
        a * b
    }

    fn each_and(a: u64x4, b: u64x4) -> u64x4 {
        a & b
    }

    fn each_or(a: u64x4, b: u64x4) -> u64x4 {
        a | b
    }

    fn each_xor(a: u64x4, b: u64x4) -> u64x4 {
        a ^ b
    }

    fn each_shifted_left(a: u64x4, amounts: u64x4) -> u64x4 {
        a << (amounts & u64x4::splat(63))
    }

    fn each_shifted_right(a: u64x4, amounts: u64x4) -> u64x4 {
        a >> (amounts & u64x4::splat(63))
    }
}
