//! Consecutive elements of a source, starting at any index, as chunks of 32 bytes.
ghost use Rattle.std.specs.Prelude.{◌≡◌, ◌+◌, ◌-◌, ◌*◌, ◌<◌, ◌≤◌, ℕ, IfSome, length, nat_lt, replicate, slice_index};
ghost use Rattle.std.specs.Prelude.{if◌then◌else◌};
ghost use Rattle.std.specs.Simd.Lanes.{chunk, put_chunk};
ghost use Rattle.rv_model.specs.elements.Elements.{element, in_range};
ghost use Rattle.rv_model.specs.lending.Writes.{Writes};
ghost use Rattle.rv_model.specs.vector.Groups.{width_bytes};

use lane_arith::Lane;
use rv_model::GROUP_BYTES;
use std::simd::prelude::*;

/// The 32 bytes starting at index `at`.
fn window(bytes: &[u8], at: usize) -> u8x32
    requires { at + 32 ≤ length bytes.now }
    ensures { result ≡ chunk at 32 bytes.now }
{
    u8x32::from_slice(&bytes[at..])
}

/// 32 zeros, a chunk, and 32 zeros.
fn between_zeros(chunk: u8x32) -> [u8; 96]
    ensures { result ≡ put_chunk 32 (replicate 96 0) chunk }
{
    let mut room = [0; 96];
    chunk.copy_to_slice(&mut room[32..]);
    room
}

/// The 32 bytes starting at index `at` of a sequence of 32 zeros, `a`, and zeros.
fn bytes_around(a: &[u8], at: usize) -> u8x32
    requires whole { 32 ≤ length a.now }
    requires inside { at ≤ length a.now + 32 }
    ensures { (j : ℕ) → j < 32 → 32 ≤ at + j → slice_index result j ≡ slice_index a.now (at + j - 32) }
{
    let start = at.saturating_sub(32).min(a.len() - 32);
    window(&between_zeros(window(a, start)), at - start)
}

/// The elements starting at index `from` of a sequence of a chunk of zeros, `a`, and zeros. Return `None` if `a` is
/// shorter than 32 bytes, or `from` is past the end of `a` in the sequence.
pub(crate) fn elements_around<L: Lane>(a: &[u8], from: usize) -> Option<L::Vector>
    ensures { IfSome result (λ made. (i : ℕ) → i < L.count → L.count ≤ from + i
        → L.lane made i ≡ element (width_bytes L.width) a.now (from + i - L.count)) }
{
    let width = L::bits() as usize / 8;
    if a.len() < 32 || (a.len() + 32) / width < from {
        return None;
    }
    Some(L::from_bytes(bytes_around(a, width * from)))
}

/// The elements of `first` below index `count`, and those of `rest` from there on.
pub(crate) fn first_then<L: Lane>(first: L::Vector, rest: L::Vector, count: usize) -> L::Vector
    requires { count ≤ L.count }
    ensures { (i : ℕ) → i < L.count → L.lane result i ≡ (if nat_lt i count then L.lane first i else L.lane rest i) }
{
    L::select(L::choose((1 << count) - 1), first, rest)
}

/// A chunk of the elements of `a`, moved up by `offset` indices. The elements below `offset` are `before`.
pub(crate) fn moved_up<L: Lane>(a: &[u8], offset: u64, before: L, chunk: usize) -> Option<L::Vector>
    requires { L.count * chunk + L.count ≤ GROUP_BYTES }
    ensures { IfSome result (λ made. (i : ℕ) → i < L.count → L.lane made i
        ≡ (if nat_lt (L.count * chunk + i) offset then L.value before
        else element (width_bytes L.width) a.now (L.count * chunk + i - offset))) }
{
    let first = L::count() * chunk;
    let end = first + L::count();
    let start = offset.min(end as u64) as usize;
    let moved = elements_around::<L>(a, end - start)?;
    let before = L::repeated(before);
    Some(first_then::<L>(before, moved, start.saturating_sub(first)))
}

/// Copy the elements of `a` starting at index `from` to those of the destination from `start` up to `end`,
/// excluding `end`.
pub(crate) fn move_elements<L: Lane>(
    a: &[u8],
    from: usize,
    start: usize,
    end: usize,
    destination: &mut [u8],
)
    requires source { start < end → width_bytes L.width * (from + (end - start)) ≤ length a.now }
    requires room { width_bytes L.width * end ≤ length destination.old }
    requires count { end ≤ GROUP_BYTES }
    ensures { Writes (width_bytes L.width) (in_range start end)
        (λ i. element (width_bytes L.width) a.now (from + (i - start))) destination.old destination.new }
{
    let width = L::bits() as usize / 8;
    if start < end {
        let (at, count) = (width * from, width * (end - start));
        destination[width * start..width * end].copy_from_slice(&a[at..at + count]);
    }
}
