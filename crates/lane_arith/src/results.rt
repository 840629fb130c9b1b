//! Writing of results of element-wise instructions to the elements of a destination ("V" Vector Extension 1.0,
//! sections 5.3 and 5.4).
ghost use Rattle.std.specs.Prelude.{◌≡◌, ◌+◌, ◌*◌, ◌/◌, ◌%◌, ◌^◌, ◌<◌, ◌≤◌, ◌==◌, ◌&&◌, ℕ, IfSome, List, length};
ghost use Rattle.std.specs.Prelude.{nat_lt, true, false, slice_index, if◌then◌else◌};
ghost use Rattle.std.specs.Int.{byte_at};
ghost use Rattle.std.specs.Simd.Lanes.{chunk, put_chunk};
ghost use Rattle.rv_model.specs.elements.Elements.{in_range, is_changed, result_or_ones};
ghost use Rattle.rv_model.specs.elements.Formulas.{ones};
ghost use Rattle.rv_model.specs.lending.Writes.{Writes};
ghost use Rattle.rv_model.specs.vector.Groups.{width_bytes};

use crate::body::Body;
use crate::chunk::merged;
use crate::chunk_bits::{active_bits, filled_bits};
use crate::lane::Lane;
use rv_model::GROUP_BYTES;
use std::simd::prelude::*;

/// The results of an instruction for the elements of its destination.
pub trait Results<L: Lane> {
    // The result for the element at an index, as an unsigned number.
    ghost number: { Self → ℕ → ℕ };

    // The operands have an element at this index.
    ghost has: { Self → ℕ → Type 0 };

    /// The result for the element at an index.
    fn result(&self, index: usize) -> L
        requires { has self.now index }
        ensures { L.value result ≡ number self.now index };

    /// Return the results for the elements of a chunk of 32 bytes, or `None` if SIMD instructions don't compute
    /// them.
    fn chunk_results(&self, _chunk: usize) -> Option<L::Vector>
        requires { L.count * _chunk + L.count ≤ GROUP_BYTES }
        ensures { IfSome result (λ made. (i : ℕ) → i < L.count → L.lane made i
            ≡ number self.now (L.count * _chunk + i)) }
    {
        None
    }

    /// Write the results for all elements from `_start` up to `_end`, excluding `_end`, if the operation has a loop
    /// of its own for many elements. Return whether the results are written.
    fn write_range(&self, _start: usize, _end: usize, _destination: &mut [u8]) -> bool
        requires operands { (i : ℕ) → i < _end → has self.now i }
        requires room { width_bytes L.width * _end ≤ length _destination.old }
        requires count { _end ≤ GROUP_BYTES }
        ensures done { result ≡ true
            → Writes (width_bytes L.width) (in_range _start _end) (number self.now) _destination.old _destination.new }
        ensures kept { result ≡ false → _destination.new ≡ _destination.old }
    {
        false
    }
}

/// `write_results` for one element at a time.
#[inline(always)]
fn write_each<L: Lane, R: Results<L>>(
    results: &R,
    body: &Body<'_>,
    destination: &mut [u8],
    fill_masked_off: bool,
)
    requires operands { (i : ℕ) → i < body.now.end → R.has results.now i }
    requires room { width_bytes L.width * body.now.end ≤ length destination.old }
    ensures { Writes (width_bytes L.width) (is_changed body.now fill_masked_off false)
        (result_or_ones body.now (R.number results.now) (ones L.width)) destination.old destination.new }
{
    for i in body.start()..body.end() {
        if body.is_enabled(i) {
            results.result(i).store(destination, i);
        } else if fill_masked_off {
            L::all_ones().store(destination, i);
        }
    }
}

/// Write a chunk of 32 bytes of results, starting at byte `at` of the destination. An element becomes its result if
/// its bit of `active` is set, else all ones if its bit of `filled` is set. All other elements are unchanged.
#[inline(always)]
pub fn put_results<L: Lane>(
    results: L::Vector,
    active: u64,
    filled: u64,
    at: usize,
    destination: &mut [u8],
)
    requires { at + 32 ≤ length destination.old }
    ensures { (made : List ℕ) × (destination.new ≡ put_chunk at destination.old made) × (length made ≡ 32)
        × ((i m : ℕ) → i < L.count → m < width_bytes L.width → slice_index made (width_bytes L.width * i + m)
        ≡ (if active / 2 ^ i % 2 == 0
        then (if filled / 2 ^ i % 2 == 0 then slice_index (chunk at 32 destination.old) (width_bytes L.width * i + m)
        else byte_at m (ones L.width))
        else byte_at m (L.lane results i))) }
{
    let old = u8x32::from_slice(&destination[at..]);
    let new = merged::<L>(results, old, active, filled);
    new.copy_to_slice(&mut destination[at..]);
}

/// `write_results` for one chunk of 32 bytes at a time, up to the first chunk whose results SIMD instructions don't
/// compute. Return the index of the first element that isn't processed.
#[inline(always)]
fn write_chunks<L: Lane, R: Results<L>>(
    results: &R,
    body: &Body<'_>,
    destination: &mut [u8],
    fill_masked_off: bool,
) -> usize
    ensures { Writes (width_bytes L.width) (λ e. is_changed body.now fill_masked_off false e && nat_lt e result)
        (result_or_ones body.now (R.number results.now) (ones L.width)) destination.old destination.new }
{
    let count = L::count();
    let whole = (destination.len() / 32).min(body.end().div_ceil(count));
    for c in 0..whole {
        let Some(made) = results.chunk_results(c) else {
            return count * c;
        };
        let active = active_bits(body, count * c, count);
        let filled = filled_bits(body, fill_masked_off, count * c, count);
        put_results::<L>(made, active, filled, 32 * c, destination);
    }
    count * whole
}

/// `write_results`, first for chunks of 32 bytes and then for the remaining elements one at a time.
#[inline(always)]
fn write_in_turn<L: Lane, R: Results<L>>(
    results: &R,
    body: &Body<'_>,
    destination: &mut [u8],
    fill_masked_off: bool,
)
    requires operands { (i : ℕ) → i < body.now.end → R.has results.now i }
    requires room { width_bytes L.width * body.now.end ≤ length destination.old }
    ensures { Writes (width_bytes L.width) (is_changed body.now fill_masked_off false)
        (result_or_ones body.now (R.number results.now) (ones L.width)) destination.old destination.new }
{
    let left = write_chunks(results, body, destination, fill_masked_off);
    let start = body.start().max(left);
    let end = body.end();
    if start < end {
        let rest = Body::new(body.is_unmasked(), body.mask(), start, end);
        write_each(results, &rest, destination, fill_masked_off);
    }
}

/// Write the result to each active element of the destination. If `fill_masked_off`, masked-off elements of the
/// body become all ones. All other elements are unchanged.
#[inline(always)]
pub fn write_results<L: Lane, R: Results<L>>(
    results: &R,
    body: &Body<'_>,
    destination: &mut [u8],
    fill_masked_off: bool,
)
    requires operands { (i : ℕ) → i < body.now.end → R.has results.now i }
    requires room { width_bytes L.width * body.now.end ≤ length destination.old }
    ensures { Writes (width_bytes L.width) (is_changed body.now fill_masked_off false)
        (result_or_ones body.now (R.number results.now) (ones L.width)) destination.old destination.new }
{
    if body.is_unmasked() && results.write_range(body.start(), body.end(), destination) {
        return;
    }
    write_in_turn(results, body, destination, fill_masked_off);
}

/// Write `number` to each element from `start` up to `end`, excluding `end`.
pub fn fill<L: Lane>(number: L, start: usize, end: usize, destination: &mut [u8])
    requires destination { width_bytes L.width * end ≤ length destination.old }
    requires count { end ≤ GROUP_BYTES }
    ensures { Writes (width_bytes L.width) (in_range start end) (λ i. L.value number) destination.old destination.new }
{
    for i in start..end {
        number.store(destination, i);
    }
}
