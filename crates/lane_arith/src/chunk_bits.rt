//! Bit masks for the elements of a chunk of 32 bytes ("V" Vector Extension 1.0, sections 5.3 and 5.4).
ghost use Rattle.std.specs.Prelude.{◌≡◌, ◌+◌, ◌-◌, ◌/◌, ◌%◌, ◌^◌, ◌<◌, ◌≤◌, ◌==◌, ◌&&◌, ℕ, nat_le, not};
ghost use Rattle.rv_model.specs.elements.Elements.{in_body, in_range, is_active, is_enabled, mask_bit};

use crate::body::Body;
use crate::lane::Lane;
use rv_model::{GROUP_BYTES, VLENB};

/// Whether all of the `count` indices starting at `first` are at least `start` and below `end`.
#[inline(always)]
fn is_within(start: usize, end: usize, first: usize, count: usize) -> bool
    ensures { result ≡ (nat_le start first && nat_le count (end - first)) }
{
    start <= first && count <= end.saturating_sub(first)
}

/// `range_bits`, if at least one of the bits is clear.
#[inline(never)]
fn part_bits(start: usize, end: usize, first: usize, count: usize) -> u64
    requires { count ≤ 32 }
    ensures { (i : ℕ) → i < count → (result / 2 ^ i % 2 == 0) ≡ not (in_range start end (first + i)) }
{
    let low = start.saturating_sub(first).min(count);
    let high = end.saturating_sub(first).min(count).max(low);
    (1 << high) - (1 << low)
}

/// A bit for each of the `count` indices starting at `first`, set if the index is at least `start` and below `end`.
#[inline(always)]
fn range_bits(start: usize, end: usize, first: usize, count: usize) -> u64
    requires { count ≤ 32 }
    ensures { (i : ℕ) → i < count → (result / 2 ^ i % 2 == 0) ≡ not (in_range start end (first + i)) }
{
    if is_within(start, end, first, count) {
        u64::MAX
    } else {
        part_bits(start, end, first, count)
    }
}

/// Return the bits of a mask for the `count` elements starting at `first`, the first element in bit 0. Bits above
/// these are unspecified.
#[inline(always)]
pub fn mask_bits(mask: &[u8; VLENB], first: usize, count: usize) -> u64
    requires word { first % 32 + count ≤ 32 }
    requires inside { first + count ≤ GROUP_BYTES }
    requires some { 0 < count }
    ensures { (i : ℕ) → i < count → (result / 2 ^ i % 2 == 0) ≡ not (mask_bit mask.now (first + i)) }
{
    u64::from(u32::load(mask, first / 32)) >> (first % 32)
}

/// Return a bit for each of the `count` elements starting at `first`, set if the mask enables the element. Bits
/// above these are unspecified.
#[inline(always)]
pub fn enabled_bits(body: &Body<'_>, first: usize, count: usize) -> u64
    requires word { first % 32 + count ≤ 32 }
    requires inside { first + count ≤ GROUP_BYTES }
    requires some { 0 < count }
    ensures { (i : ℕ) → i < count → (result / 2 ^ i % 2 == 0) ≡ not (is_enabled body.now (first + i)) }
{
    if body.is_unmasked() {
        u64::MAX
    } else {
        mask_bits(body.mask(), first, count)
    }
}

/// Return a bit for each of the `count` elements starting at `first`, the first element in bit 0, set if the
/// element is active. A single 32-bit word of v0 must contain the mask bits of these elements. Bits above these are
/// unspecified.
#[inline(always)]
pub fn active_bits(body: &Body<'_>, first: usize, count: usize) -> u64
    requires word { first % 32 + count ≤ 32 }
    requires inside { first + count ≤ GROUP_BYTES }
    requires some { 0 < count }
    ensures { (i : ℕ) → i < count → (result / 2 ^ i % 2 == 0) ≡ not (is_active body.now (first + i)) }
{
    range_bits(body.start(), body.end(), first, count) & enabled_bits(body, first, count)
}

/// Return a bit for each of the `count` elements starting at `first`, the first element in bit 0, set if
/// `fill_masked_off` and the element is in the body. Bits above these are unspecified.
#[inline(always)]
pub fn filled_bits(body: &Body<'_>, fill_masked_off: bool, first: usize, count: usize) -> u64
    requires { count ≤ 32 }
    ensures { (i : ℕ) → i < count → (result / 2 ^ i % 2 == 0) ≡ not (fill_masked_off && in_body body.now (first + i)) }
{
    if fill_masked_off {
        range_bits(body.start(), body.end(), first, count)
    } else {
        0
    }
}
