//! Packing of the elements that a mask selects ("V" Vector Extension 1.0, section 16.5).
ghost use Rattle.std.specs.Prelude.{◌≡◌, ◌+◌, ◌-◌, ◌*◌, ◌/◌, ◌%◌, ◌^◌, ◌<◌, ◌≤◌, ◌==◌, ◌&&◌, ℕ, List, length, nat_lt};
ghost use Rattle.std.specs.Prelude.{not, slice_index};
ghost use Rattle.rv_model.specs.elements.Elements.{element, mask_bit};
ghost use Rattle.rv_model.specs.elements.PermutationResults.{packed};
ghost use Rattle.rv_model.specs.lending.Writes.{Writes};
ghost use Rattle.rv_model.specs.vector.Groups.{width_bytes};

use lane_arith::{Lane, mask_bits};
use rv_model::{GROUP_BYTES, VLENB};

/// A bit for each element from `from` up to `to`, excluding `to`, set if the mask's bit is set. All bits above are
/// clear.
fn selected(select: &[u8; VLENB], from: usize, to: usize) -> u64
    requires word { from % 32 + (to - from) ≤ 32 }
    requires some { from < to }
    requires most { to ≤ GROUP_BYTES }
    ensures { (i : ℕ) → (result / 2 ^ i % 2 == 0) ≡ not (nat_lt (from + i) to && mask_bit select.now (from + i)) }
{
    mask_bits(select, from, to - from) % (1 << (to - from))
}

/// `compress` for the elements from `from` up to `to`, excluding `to`, whose bits are in a single 32-bit word of
/// `select`. `before` elements are already packed. Return the number of packed elements.
fn pack_word<L: Lane>(
    a: &[u8],
    select: &[u8; VLENB],
    from: usize,
    to: usize,
    before: usize,
    destination: &mut [u8],
) -> usize
    requires word { from % 32 + (to - from) ≤ 32 }
    requires some { from < to }
    requires most { to ≤ GROUP_BYTES }
    requires operand { width_bytes L.width * to ≤ length a.now }
    requires room { width_bytes L.width * to ≤ length destination.old }
    requires many { before ≡ length (packed select.now (element (width_bytes L.width) a.now) from) }
    ensures { (old : List ℕ)
        → Writes (width_bytes L.width)
        (λ j. nat_lt j (length (packed select.now (element (width_bytes L.width) a.now) from)))
        (slice_index (packed select.now (element (width_bytes L.width) a.now) from)) old destination.old
        → (result ≡ length (packed select.now (element (width_bytes L.width) a.now) to))
        × Writes (width_bytes L.width)
        (λ j. nat_lt j (length (packed select.now (element (width_bytes L.width) a.now) to)))
        (slice_index (packed select.now (element (width_bytes L.width) a.now) to)) old destination.new }
{
    let mut set = selected(select, from, to);
    let mut next = from;
    let mut count = before;
    while set != 0 {
        let passed = set.trailing_zeros();
        next += passed as usize;
        L::load(a, next).store(destination, count);
        count += 1;
        next += 1;
        set = set >> passed >> 1;
    }
    count
}

/// `vcompress.vm`: write the elements of `a`, the elements of vs2, whose bit in `select`, which is vs1, is set.
/// They become consecutive elements of the destination, starting at element 0. Only elements below `end`, which is
/// vl, are selected. All other elements of the destination are unchanged, including those below `end`.
pub fn compress<L: Lane>(a: &[u8], select: &[u8; VLENB], end: usize, destination: &mut [u8])
    requires operand { width_bytes L.width * end ≤ length a.now }
    requires room { width_bytes L.width * end ≤ length destination.old }
    requires count { end ≤ GROUP_BYTES }
    ensures { Writes (width_bytes L.width)
        (λ j. nat_lt j (length (packed select.now (element (width_bytes L.width) a.now) end)))
        (slice_index (packed select.now (element (width_bytes L.width) a.now) end)) destination.old destination.new }
{
    let mut count = 0;
    for word in 0..end.div_ceil(32) {
        let from = 32 * word;
        count = pack_word::<L>(a, select, from, end.min(from + 32), count, destination);
    }
}
