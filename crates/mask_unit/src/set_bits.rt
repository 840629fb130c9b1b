//! The active elements whose bit of a mask is set: their number, and the first of them ("V" Vector Extension 1.0,
//! sections 15.2, 15.3 and 15.8).
ghost use Rattle.std.specs.Prelude.{
  ◌≡◌,
  ◌+◌,
  ◌*◌,
  ◌/◌,
  ◌%◌,
  ◌^◌,
  ◌<◌,
  ◌≤◌,
  ◌==◌,
  ℕ,
  count_ones,
  length,
  not,
  slice_index,
};
ghost use Rattle.std.specs.Simd.Lanes.{put_chunk};
ghost use Rattle.rv_model.specs.elements.Elements.{mask_bit};
ghost use Rattle.rv_model.specs.elements.Masks.{first_set, is_set, set_count};

use crate::chunk::{logic, set_in_both};
use lane_arith::{Body, active_bits, active_bytes, mask_bits};
use rv_model::instructions::operations::MaskLogicOp;
use rv_model::{GROUP_BYTES, VLENB};
use std::simd::prelude::*;

// For each bit of a byte, a mask of the bits below it.
const LOWER_BITS: [u8; 8] = [0, 1, 3, 7, 15, 31, 63, 127];

/// Return the number of active elements whose bit is set (`vcpop.m`), 0 to 256.
pub fn count(body: &Body<'_>, bits: &[u8; VLENB]) -> usize
    ensures { result ≡ set_count body.now bits.now body.now.end }
{
    // For the proof alone: the body ends at or below `GROUP_BYTES`.
    let _end = body.end();
    let set = u8x32::from_array(*bits);
    usize::from(set_in_both(active_bytes(body), set))
}

/// A bit for each of the 32 elements starting at index 32 * `word`, set if the element is active and its bit is
/// set.
fn set_word(body: &Body<'_>, bits: &[u8; VLENB], word: usize) -> u64
    requires room { 32 * word + 32 ≤ GROUP_BYTES }
    ensures value { (i : ℕ) → i < 32 → (result / 2 ^ i % 2 == 0) ≡ not (is_set body.now bits.now (32 * word + i)) }
    ensures bound { result < 2 ^ 32 }
{
    let active = active_bits(body, 32 * word, 32);
    (active & mask_bits(bits, 32 * word, 32)) % (1 << 32)
}

/// Return the index of the first active element whose bit is set, or `None` if there is none (`vfirst.m`).
pub fn first(body: &Body<'_>, bits: &[u8; VLENB]) -> Option<usize>
    ensures { result ≡ first_set body.now bits.now }
{
    for word in 0..body.end().div_ceil(32) {
        let set = set_word(body, bits, word);
        if set != 0 {
            return Some(32 * word + set.trailing_zeros() as usize);
        }
    }
    None
}

/// A bit for each element below the end of the body, set if the element is active and its bit is set.
fn set_bytes(body: &Body<'_>, bits: &[u8; VLENB]) -> [u8; VLENB]
    ensures { (i : ℕ) → i < body.now.end → mask_bit result i ≡ is_set body.now bits.now i }
{
    if body.is_unmasked() && body.start() == 0 {
        return *bits;
    }
    let set = u8x32::from_array(*bits);
    logic(MaskLogicOp::Vmand, active_bytes(body), set).to_array()
}

/// The counts below each of 8 elements: `before` plus the number of set bits in the lower bits of the byte.
fn counts_in_byte(byte: u8, before: u8) -> u8x8
    requires { before + 8 ≤ 256 }
    ensures value { (i : ℕ) → i < 8 → slice_index result i ≡ before + count_ones (byte % 2 ^ i) }
    ensures length { length result ≡ 8 }
{
    let lower = u8x8::splat(byte) & u8x8::from_array(LOWER_BITS);
    u8x8::splat(before) + lower.count_ones()
}

/// The number of set bits in a byte.
fn set_in_byte(byte: u8) -> usize
    ensures { result ≡ count_ones (byte % 2 ^ 8) }
{
    byte.count_ones() as usize
}

/// Write the counts of 8 elements, starting at index `at`.
fn put_counts(made: u8x8, at: usize, counts: &mut [u8])
    requires { at + 8 ≤ length counts.old }
    ensures { counts.new ≡ put_chunk at counts.old made }
{
    made.copy_to_slice(&mut counts[at..]);
}

/// For each element below the end of the body, write the number of active elements below it whose bit is set
/// (`viota.m`). Each count is at most 255. Other elements of `counts` are unspecified.
pub fn counts_below(body: &Body<'_>, bits: &[u8; VLENB], counts: &mut [u8; GROUP_BYTES])
    ensures { (i : ℕ) → i < body.now.end → slice_index counts.new i ≡ set_count body.now bits.now i }
{
    let set = set_bytes(body, bits);
    let mut below = 0;
    for q in 0..body.end().div_ceil(8) {
        let byte = set[q];
        put_counts(counts_in_byte(byte, below as u8), 8 * q, counts);
        below += set_in_byte(byte);
    }
}
