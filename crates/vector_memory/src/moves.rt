//! The segments of a load or store and their addresses ("V" Vector Extension 1.0, sections 7.4 to 7.9).
ghost use Rattle.std.specs.Prelude.{◌≤◌};
ghost use Rattle.rv_model.specs.declared.vector.sizes.TheConstants.{GROUP_BYTES};
ghost use Rattle.vector_memory.specs.SegmentRoom.{HasRoom};

use crate::addresses::Addresses;
use crate::segments::Segments;
use lane_arith::Body;

/// Segments of the indices of a body, which have room in the registers, and the address of each in memory.
#[derive(Drop)]
pub(crate) struct Moves<'a, A: Addresses> {
    pub segments: Segments,
    pub addresses: A,
    pub body: Body<'a>,
    ghost room: { HasRoom segments body.end },
    ghost most: { body.end ≤ GROUP_BYTES },
    ghost addressed: { body.end ≤ A.count addresses },
}

impl<'a, A: Addresses> Moves<'a, A> {
    ghost use Rattle.std.specs.Prelude.{◌≡◌, ◌+◌, min};

    /// Return a copy to pass to another function, so that the compiler can keep the original in registers.
    #[inline(always)]
    pub(crate) fn copied(&self) -> Moves<'a, A>
        ensures { result ≡ self.now }
    {
        Moves {
            segments: self.segments,
            addresses: self.addresses,
            body: self.body.copied(),
        }
    }

    /// Return a copy with the number and the size of fields that the caller passes, as constants where it can.
    #[inline(always)]
    pub(crate) fn counted(&self, fields: usize, size: usize) -> Moves<'a, A>
        requires fields { fields ≡ self.now.segments.fields }
        requires size { size ≡ self.now.segments.size }
        ensures { result ≡ self.now }
    {
        Moves {
            segments: Segments {
                fields,
                size,
                ..self.segments
            },
            addresses: self.addresses,
            body: self.body.copied(),
        }
    }

    /// Return the index after the last of at most `limit` indices.
    #[inline(always)]
    pub(crate) fn stop(&self, limit: usize) -> usize
        ensures { result ≡ min self.now.body.end (self.now.body.start + limit) }
    {
        self.body.start().saturating_add(limit).min(self.body.end())
    }
}
