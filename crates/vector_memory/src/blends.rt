//! A faster path for a span of contiguous elements of one field, some of them masked off. It processes 32
//! bytes at a time, and blends the active elements with the others ("V" Vector Extension 1.0, sections 5.3
//! and 7.4).
ghost use Rattle.std.specs.Prelude.{◌≡◌, ◌*◌, ◌<◌, ◌≤◌, ℕ, false, length, slice_index, true};
ghost use Rattle.rv_model.specs.elements.Elements.{element, is_changed, result_or_ones};
ghost use Rattle.rv_model.specs.lending.Writes.{HasElement, Writes};
ghost use Rattle.rv_model.specs.elements.Formulas.{ones};
ghost use Rattle.rv_model.specs.vector.Groups.{width_bytes};
ghost use Rattle.vector_memory.specs.SpanAccess.{IsBlend, IsRead, IsWritten, part_of};

use crate::spans::Span;
use lane_arith::{Body, Lane, Results, operand_chunk, write_results};
use rv_model::VFile;

/// Elements in a slice of bytes, least significant byte first.
#[derive(Clone, Copy)]
struct Elements<'a> {
    bytes: &'a [u8],
}

impl<'a, L: Lane> Results<L> for Elements<'a> {
    ghost number = { λ r i. element (width_bytes L.width) r.bytes.now i };

    ghost has = { λ r i. HasElement (width_bytes L.width) r.bytes.now i };

    fn result(&self, index: usize) -> L {
        L::load(self.bytes, index)
    }

    fn chunk_results(&self, chunk: usize) -> Option<L::Vector> {
        operand_chunk::<L>(self.bytes, chunk)
    }
}

/// Write the active elements of a body to the same elements of a destination; with `fill_masked_off`,
/// masked-off elements of the destination become all ones.
#[inline(always)]
fn blend<L: Lane>(elements: &[u8], body: &Body<'_>, fill_masked_off: bool, destination: &mut [u8])
    requires elements { width_bytes L.width * body.now.end ≤ length elements.now }
    requires room { width_bytes L.width * body.now.end ≤ length destination.old }
    ensures writes { Writes (width_bytes L.width) (is_changed body.now fill_masked_off false)
        (result_or_ones body.now (λ i. element (width_bytes L.width) elements.now i) (ones L.width))
        destination.old destination.new }
    ensures bytes { (j : ℕ) → slice_index elements.now j < 256 }
{
    let results = Elements { bytes: elements };
    write_results::<L, Elements<'_>>(&results, body, destination, fill_masked_off);
}

impl Span<'_> {
    /// Return whether its elements are contiguous elements of one field, from index 0 on.
    #[inline(always)]
    pub(crate) fn is_blend(&self) -> bool
        ensures { result ≡ true → IsBlend self.now }
    {
        self.segments.are_contiguous(self.distance) && self.body.start() == 0
    }

    /// Return the body from index 0 up to `stop`.
    #[inline(always)]
    fn part(&self) -> Body<'_>
        ensures { result ≡ part_of self.now.body self.now.stop }
    {
        Body::new(self.body.is_unmasked(), self.body.mask(), 0, self.stop)
    }

    /// Copy its active elements from its bytes to the registers; with `fill`, masked-off elements become all
    /// ones.
    #[inline(always)]
    pub(crate) fn read_blend<L: Lane>(&self, bytes: &[u8], fill: bool, file: &mut VFile)
        requires length { length bytes.now ≡ self.now.length }
        requires blend { IsBlend self.now }
        requires size { self.now.segments.size ≡ width_bytes L.width }
        ensures { IsRead self.now fill bytes.now file.old file.new }
    {
        let place = self.segments.place(0, 0);
        let group = file.part_mut(place, place + bytes.len());
        blend::<L>(bytes, &self.part(), fill, group);
    }

    /// Copy its active elements from the registers to its bytes.
    #[inline(always)]
    pub(crate) fn write_blend<L: Lane>(&self, file: &VFile, bytes: &mut [u8])
        requires length { length bytes.old ≡ self.now.length }
        requires blend { IsBlend self.now }
        requires size { self.now.segments.size ≡ width_bytes L.width }
        ensures { IsWritten self.now file.now bytes.old bytes.new }
    {
        let place = self.segments.place(0, 0);
        let group = file.part(place, place + bytes.len());
        blend::<L>(group, &self.part(), false, bytes);
    }
}
