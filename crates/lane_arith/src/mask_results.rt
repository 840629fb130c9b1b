//! Writing of results to a destination that is a mask ("V" Vector Extension 1.0, sections 4.5, 5.3 and 5.4).
ghost use Rattle.std.specs.Prelude.{◌≡◌, ◌+◌, ◌*◌, ◌/◌, ◌%◌, ◌^◌, ◌<◌, ◌≤◌, ◌==◌, ℕ, Bool, IfSome, length, nat_lt, not};
ghost use Rattle.std.specs.Prelude.{slice_index, true, false, if◌then◌else◌};
ghost use Rattle.std.specs.Int.{from_bool};
ghost use Rattle.rv_model.specs.elements.Elements.{is_active, mask_bit, bit_or, byte_with_bits};
ghost use Rattle.rv_model.specs.lending.Writes.{WritesBits};

use crate::body::Body;
use crate::chunk::replaced_bytes;
use crate::chunk_bits::active_bits;
use crate::lane::Lane;
use crate::mask_bytes::active_bytes;
use rv_model::{GROUP_BYTES, VLENB};
use std::simd::prelude::*;

/// The results of an instruction on elements of width `L` for the bits of its destination.
pub trait MaskResults<L: Lane> {
    // The result for the bit at an index.
    ghost bit: { Self → ℕ → Bool };

    // The operands have an element at this index.
    ghost has: { Self → ℕ → Type 0 };

    /// Return the result for the bit at an index.
    fn bit(&self, index: usize) -> bool
        requires { has self.now index }
        ensures { result ≡ bit self.now index };

    /// Return the results for the elements of a chunk of 32 bytes, one bit for each with the first element in bit
    /// 0, or `None` if SIMD instructions don't compute them.
    fn chunk_bits(&self, _chunk: usize) -> Option<u64>
        requires { L.count * _chunk + L.count ≤ GROUP_BYTES }
        ensures value { IfSome result (λ word. (i : ℕ) → i < L.count → (word / 2 ^ i % 2 == 0)
            ≡ not (bit self.now (L.count * _chunk + i))) }
        ensures bound { IfSome result (λ word. word < 2 ^ L.count) }
    {
        None
    }

    /// `write_mask_results` to a whole register, if SIMD instructions compute the results. Return whether the
    /// results are written.
    fn write_register(&self, _body: &Body<'_>, _destination: &mut [u8]) -> bool
        ensures done { result ≡ true → WritesBits (is_active _body.now) (bit self.now)
            _destination.old _destination.new }
        ensures kept { result ≡ false → _destination.new ≡ _destination.old }
    {
        false
    }
}

/// The result if the bit at an index is active, else the old bit.
fn bit_or<L: Lane, R: MaskResults<L>>(
    results: &R,
    body: &Body<'_>,
    bytes: &[u8],
    index: usize,
) -> bool
    requires operands { (i : ℕ) → i < body.now.end → R.has results.now i }
    requires room { index < 8 * length bytes.now }
    ensures { result ≡ bit_or (is_active body.now) (R.bit results.now) bytes.now index }
{
    if body.is_active(index) {
        results.bit(index)
    } else {
        bytes[index / 8] >> (index % 8) & 1 == 1
    }
}

/// 1 if the bit is set, else 0.
fn one_if(bit: bool) -> u8
    ensures value { result ≡ from_bool bit }
    ensures most { result ≤ 1 }
{
    u8::from(bit)
}

/// The byte at an index of a mask, with its active bits replaced by results.
fn byte_with_bits<L: Lane, R: MaskResults<L>>(
    results: &R,
    body: &Body<'_>,
    bytes: &[u8],
    index: usize,
) -> u8
    requires operands { (i : ℕ) → i < body.now.end → R.has results.now i }
    requires room { index < length bytes.now }
    requires most { length bytes.now ≤ GROUP_BYTES }
    ensures { result ≡ byte_with_bits (is_active body.now) (R.bit results.now) bytes.now index }
{
    let first = 8 * index;
    one_if(bit_or(results, body, bytes, first))
        + 2 * one_if(bit_or(results, body, bytes, first + 1))
        + 4 * one_if(bit_or(results, body, bytes, first + 2))
        + 8 * one_if(bit_or(results, body, bytes, first + 3))
        + 16 * one_if(bit_or(results, body, bytes, first + 4))
        + 32 * one_if(bit_or(results, body, bytes, first + 5))
        + 64 * one_if(bit_or(results, body, bytes, first + 6))
        + 128 * one_if(bit_or(results, body, bytes, first + 7))
}

/// Replacing the active bits of a byte past the body doesn't change the byte, since it has none.
fn bytes_past_the_body<L: Lane, R: MaskResults<L>>(_results: &R, _body: &Body<'_>, _bytes: &[u8])
    ensures { (q : ℕ) → _body.now.end ≤ 8 * q → slice_index _bytes.now q
        ≡ byte_with_bits (is_active _body.now) (R.bit _results.now) _bytes.now q }
{}

/// The results for the bits before `end` of the destination's 32-bit word with index `word`, or `None` if SIMD
/// instructions don't compute its chunks.
fn word_results<L: Lane, R: MaskResults<L>>(results: &R, word: usize, end: usize) -> Option<u64>
    requires { 32 * word + 32 ≤ GROUP_BYTES }
    ensures { IfSome result (λ bits. (i : ℕ) → i < 32 → 32 * word + i < end
        → (bits / 2 ^ i % 2 == 0) ≡ not (R.bit results.now (32 * word + i))) }
{
    let count = L::count();
    let chunks = 32 / count;
    let left = end.saturating_sub(32 * word);
    let mut bits = 0;
    for j in 0..chunks {
        if left <= count * j {
            return Some(bits);
        }
        let Some(more) = results.chunk_bits(chunks * word + j) else {
            return None;
        };
        bits += more << (count * j);
    }
    Some(bits)
}

/// The word with index `word` of a mask, as 32-bit words.
fn word_of(mask: &[u8], word: usize) -> u32
    requires { 4 * word + 4 ≤ length mask.now }
    ensures { (i : ℕ) → i < 32 → (result / 2 ^ i % 2 == 1) ≡ mask_bit mask.now (32 * word + i) }
{
    u32::load(mask, word)
}

/// A 32-bit word `old` with its active bits replaced by bits of `new`.
fn replaced(old: u32, new: u64, active: u64) -> u32
    ensures { (i : ℕ) → i < 32 → (result / 2 ^ i % 2 == 1)
        ≡ (if active / 2 ^ i % 2 == 0 then old / 2 ^ i % 2 == 1 else not (new / 2 ^ i % 2 == 0)) }
{
    let old = u64::from(old);
    ((old ^ ((old ^ new) & active)) % (1 << 32)) as u32
}

/// Write the results to the active bits of the destination, four bytes at a time, up to the first chunk whose
/// results SIMD instructions don't compute. Return the number of processed bytes.
fn write_words<L: Lane, R: MaskResults<L>>(
    results: &R,
    body: &Body<'_>,
    destination: &mut [u8],
) -> usize
    requires most { length destination.old ≤ GROUP_BYTES }
    ensures length { length destination.new ≡ length destination.old }
    ensures bytes { (q : ℕ) → q < length destination.old → slice_index destination.new q
        ≡ (if nat_lt q result then byte_with_bits (is_active body.now) (R.bit results.now) destination.old q
        else slice_index destination.old q) }
{
    let end = body.end();
    let words = (destination.len() / 4).min(end.div_ceil(32));
    for word in 0..words {
        let Some(new) = word_results(results, word, end) else {
            return 4 * word;
        };
        let active = active_bits(body, 32 * word, 32);
        replaced(word_of(destination, word), new, active).store(destination, word);
    }
    4 * words
}

/// Write 256 bits of results to the active bits of the destination, if it is a whole register. Return whether it
/// is.
pub fn put_bits(results: u8x32, body: &Body<'_>, destination: &mut [u8]) -> bool
    ensures answer { result ≡ (length destination.old == VLENB) }
    ensures done { result ≡ true → WritesBits (is_active body.now) (mask_bit results) destination.old destination.new }
    ensures kept { result ≡ false → destination.new ≡ destination.old }
{
    if destination.len() != VLENB {
        return false;
    }
    let old = u8x32::from_slice(destination);
    replaced_bytes(old, results, active_bytes(body)).copy_to_slice(destination);
    true
}

/// `write_mask_results`, first in 32-bit words whose results SIMD instructions compute, and then one byte at a time
/// up to the last byte with a bit of the body.
fn write_in_turn<L: Lane, R: MaskResults<L>>(results: &R, body: &Body<'_>, destination: &mut [u8])
    requires operands { (i : ℕ) → i < body.now.end → R.has results.now i }
    requires most { length destination.old ≤ GROUP_BYTES }
    ensures { WritesBits (is_active body.now) (R.bit results.now) destination.old destination.new }
{
    bytes_past_the_body(results, body, destination);
    let done = write_words(results, body, destination);
    let end = body.end().div_ceil(8).min(destination.len());
    for i in done..end {
        destination[i] = byte_with_bits(results, body, destination, i);
    }
}

/// Write the result to each active bit of the destination. All other bits are unchanged.
pub fn write_mask_results<L: Lane, R: MaskResults<L>>(
    results: &R,
    body: &Body<'_>,
    destination: &mut [u8],
)
    requires operands { (i : ℕ) → i < body.now.end → R.has results.now i }
    requires most { length destination.old ≤ GROUP_BYTES }
    ensures { WritesBits (is_active body.now) (R.bit results.now) destination.old destination.new }
{
    if results.write_register(body, destination) {
        return;
    }
    write_in_turn(results, body, destination);
}
