//! The active elements of a body as a mask register of 32 bytes, with one bit for each of 256 elements ("V" Vector
//! Extension 1.0, sections 4.5 and 5.3).
ghost use Rattle.std.specs.Prelude.{◌≡◌, ◌<◌, ◌≤◌, ℕ, nat_lt};
ghost use Rattle.rv_model.specs.elements.Elements.{in_range, is_active, mask_bit};

use crate::body::Body;
use crate::chunk::{and_bytes, and_not_bytes};
use rv_model::GROUP_BYTES;
use std::simd::prelude::*;

// The index of each byte.
const PLACES: [u8; 32] = [
    0, 1, 2, 3, 4, 5, 6, 7, 8, 9, 10, 11, 12, 13, 14, 15, 16, 17, 18, 19, 20, 21, 22, 23, 24, 25,
    26, 27, 28, 29, 30, 31,
];

/// A mask whose bit is set for each element below `end`.
#[inline(always)]
fn low_bytes(end: usize) -> u8x32
    requires { end ≤ GROUP_BYTES }
    ensures { (i : ℕ) → i < GROUP_BYTES → mask_bit result i ≡ nat_lt i end }
{
    let places = u8x32::from_array(PLACES);
    let whole = u8x32::splat((end / 8) as u8);
    let part = u8x32::splat((1 << (end % 8)) - 1);
    let rest = places.simd_eq(whole).select(part, u8x32::splat(0));
    places.simd_lt(whole).select(u8x32::splat(u8::MAX), rest)
}

/// A mask whose bit is set for each element from `start` up to `end`, excluding `end`.
#[inline(always)]
fn range_bytes(start: usize, end: usize) -> u8x32
    requires { end ≤ GROUP_BYTES }
    ensures { (i : ℕ) → i < GROUP_BYTES → mask_bit result i ≡ in_range start end i }
{
    let low = low_bytes(end);
    if start == 0 {
        return low;
    }
    and_not_bytes(low, low_bytes(start.min(end)))
}

/// Return a mask whose bit is set for each active element.
#[inline(always)]
pub fn active_bytes(body: &Body<'_>) -> u8x32
    ensures { (i : ℕ) → i < GROUP_BYTES → mask_bit result i ≡ is_active body.now i }
{
    let range = range_bytes(body.start(), body.end());
    if body.is_unmasked() {
        return range;
    }
    and_bytes(range, u8x32::from_array(*body.mask()))
}
