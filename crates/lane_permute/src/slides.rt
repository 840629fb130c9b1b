//! Slides: elements of a source that move up or down by an offset, or by one index ("V" Vector Extension 1.0,
//! section 16.3).
ghost use Rattle.std.specs.Prelude.{◌≡◌, ◌+◌, ◌-◌, ◌*◌, ◌<◌, ◌≤◌, ◌==◌, ℕ, length, max, if◌then◌else◌};
ghost use Rattle.rv_model.specs.elements.Elements.{element};
ghost use Rattle.rv_model.specs.lending.Writes.{HasElement};
ghost use Rattle.rv_model.specs.elements.PermutationResults.{gathered};
ghost use Rattle.rv_model.specs.vector.Groups.{width_bytes};

use crate::gathers::gathered;
use crate::moved::{elements_around, first_then, move_elements, moved_up};
use lane_arith::{Body, Lane, Results, fill};
use rv_model::GROUP_BYTES;

/// `vslideup` (section 16.3.1): the elements of `a`, the elements of vs2, moved up by `offset` indices. Elements
/// below the offset are unchanged: the results are for the elements of `SlideUp::body`. The offset is unsigned and
/// has 64 bits at each element width.
#[derive(Clone, Copy)]
pub struct SlideUp<'a> {
    pub a: &'a [u8],
    pub offset: u64,
}

impl<'a> SlideUp<'a> {
    /// Return the body of the slide: the elements of the instruction's body from the offset on.
    pub fn body<'b>(&self, body: &'b Body<'_>) -> Body<'b>
        ensures { result ≡ record body.now { start = max body.now.start self.now.offset } }
    {
        let start = body.start().max(self.offset as usize);
        Body::new(body.is_unmasked(), body.mask(), start, body.end())
    }
}

impl<'a, L: Lane> Results<L> for SlideUp<'a> {
    ghost number = { λ r i. element (width_bytes L.width) r.a.now (i - r.offset) };

    ghost has = { λ r i. HasElement (width_bytes L.width) r.a.now (i - r.offset) };

    fn result(&self, index: usize) -> L {
        L::load(self.a, index.saturating_sub(self.offset as usize))
    }

    fn chunk_results(&self, chunk: usize) -> Option<L::Vector> {
        if self.a.len() < 32 {
            return None;
        }
        let made = moved_up::<L>(self.a, self.offset, L::load(self.a, 0), chunk)?;
        Some(made)
    }

    fn write_range(&self, start: usize, end: usize, destination: &mut [u8]) -> bool {
        let offset = self.offset as usize;
        if start < offset {
            return false;
        }
        move_elements::<L>(self.a, start - offset, start, end, destination);
        true
    }
}

/// `vslidedown` (section 16.3.2): the elements of `a`, the elements of vs2, moved down by `offset` indices. `limit`
/// is the number of source elements, VLMAX rather than vl; zeros follow them. The offset is unsigned and has 64
/// bits at each element width.
#[derive(Clone, Copy)]
pub struct SlideDown<'a> {
    pub a: &'a [u8],
    pub limit: usize,
    pub offset: u64,
}

impl<'a, L: Lane> Results<L> for SlideDown<'a> {
    ghost number = { λ r i. gathered r.limit (element (width_bytes L.width) r.a.now) (i + r.offset) };

    ghost has = { λ r i. width_bytes L.width * r.limit ≤ length r.a.now };

    fn result(&self, index: usize) -> L {
        gathered(self.a, self.limit, self.offset.saturating_add(index as u64))
    }

    fn chunk_results(&self, chunk: usize) -> Option<L::Vector> {
        let (count, width) = (L::count(), L::bits() as usize / 8);
        if self.a.len() / width < self.limit {
            return None;
        }
        let place = self.offset.saturating_add((count * chunk) as u64);
        let from = place.min(self.limit as u64) as usize;
        let made = elements_around::<L>(&self.a[..width * self.limit], from + count)?;
        Some(made)
    }

    fn write_range(&self, start: usize, end: usize, destination: &mut [u8]) -> bool {
        let offset = self.offset as usize;
        let to = self.limit.saturating_sub(offset).max(start).min(end);
        move_elements::<L>(self.a, start.saturating_add(offset), start, to, destination);
        fill(L::low_bits(0), to, end, destination);
        true
    }
}

/// `vslide1up` (section 16.3.3): the elements of `a`, the elements of vs2, moved up by one index. Element 0 is
/// `first`, the low bits of a scalar.
#[derive(Clone, Copy)]
pub struct SlideOneUp<'a, L> {
    pub a: &'a [u8],
    pub first: L,
}

impl<'a, L: Lane> Results<L> for SlideOneUp<'a, L> {
    ghost number = { λ r i. if i == 0 then L.value r.first else element (width_bytes L.width) r.a.now (i - 1) };

    ghost has = { λ r i. 0 < i → HasElement (width_bytes L.width) r.a.now (i - 1) };

    fn result(&self, index: usize) -> L {
        if index == 0 {
            self.first
        } else {
            L::load(self.a, index - 1)
        }
    }

    fn chunk_results(&self, chunk: usize) -> Option<L::Vector> {
        let made = moved_up::<L>(self.a, 1, self.first, chunk)?;
        Some(made)
    }

    fn write_range(&self, start: usize, end: usize, destination: &mut [u8]) -> bool {
        let from = start.max(1);
        fill(self.first, start, end.min(1), destination);
        move_elements::<L>(self.a, from - 1, from, end, destination);
        true
    }
}

/// `vslide1down` (section 16.3.5): the elements of `a`, the elements of vs2, moved down by one index. The last
/// element before `end`, which is vl, is `last`, the low bits of a scalar.
#[derive(Clone, Copy)]
pub struct SlideOneDown<'a, L> {
    pub a: &'a [u8],
    pub end: usize,
    pub last: L,
}

impl<'a, L: Lane> Results<L> for SlideOneDown<'a, L> {
    ghost number = { λ r i. if i + 1 == r.end then L.value r.last else element (width_bytes L.width) r.a.now (i + 1) };

    ghost has = { λ r i. (i < r.end) × (i + 1 < r.end → HasElement (width_bytes L.width) r.a.now (i + 1)) };

    fn result(&self, index: usize) -> L {
        if index == self.end - 1 {
            self.last
        } else {
            L::load(self.a, index + 1)
        }
    }

    fn chunk_results(&self, chunk: usize) -> Option<L::Vector> {
        let (first, count) = (L::count() * chunk, L::count());
        let before = self.end.saturating_sub(first + 1).min(count);
        let to = self.end.saturating_sub(first).min(count);
        let moved = elements_around::<L>(self.a, first + count + 1)?;
        let rest = first_then::<L>(L::repeated(self.last), moved, to);
        Some(first_then::<L>(moved, rest, before))
    }

    fn write_range(&self, start: usize, end: usize, destination: &mut [u8]) -> bool {
        let to = self.end.saturating_sub(1).max(start).min(end);
        move_elements::<L>(self.a, start.saturating_add(1), start, to, destination);
        fill(self.last, to, end, destination);
        true
    }
}
