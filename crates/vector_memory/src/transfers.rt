//! Loads and stores of segments at a constant distance: all but the indexed ones ("V" Vector Extension 1.0,
//! sections 7.4, 7.5 and 7.7 to 7.9).
ghost use Rattle.std.specs.Prelude.{◌≡◌, ◌+◌, ◌*◌, ◌≤◌, ℕ};
ghost use Rattle.vector_memory.specs.Distances.{Fits, moved_by, transfer_run};
ghost use Rattle.vector_memory.specs.MovedElements.{moved_elements, moved_end};
ghost use Rattle.vector_memory.specs.Runs.{RunLeaves};
ghost use Rattle.vector_memory.specs.SegmentRoom.{HasRoom};

use crate::addresses::Strided;
use crate::moves::Moves;
use crate::runs::Extent;
use crate::segments::Segments;
use crate::shown::Viewer;
use crate::user_bytes::UserBytes;
use lane_arith::Body;
use reg_groups::mask_register;
use rv_model::instructions::operations::UnitOp;
use rv_model::{GROUP_BYTES, MemEnd, VState};

/// A load or store of segments at a constant distance: whether it is unmasked, its segments and their
/// addresses, and the number of segments.
#[derive(Clone, Copy)]
pub(crate) struct Transfer {
    pub op: UnitOp,
    pub unmasked: bool,
    pub segments: Segments,
    pub addresses: Strided,
    pub count: usize,
}

impl Transfer {
    /// Execute it segment by segment.
    pub(crate) fn run_segments<M: UserBytes>(
        &self,
        extent: Extent,
        memory: &mut M,
        state: &mut VState,
    ) -> MemEnd
        requires { Fits state.old self.now }
        ensures run { RunLeaves
            (transfer_run extent.limit extent.fill_masked_off self.now state.old (M.memory memory.old))
            result state.new (M.memory memory.new) }
        ensures others { memory.new ≡ M.with_memory memory.old (M.memory memory.new) }
    {
        let mask = mask_register(&state.file);
        let start = usize::from(state.vstart);
        let moves = Moves {
            segments: self.segments,
            addresses: self.addresses,
            body: Body::new(self.unmasked, &mask, start, self.count),
        };
        moves.run(self.op, extent, memory, state)
    }

    /// Return the index after the last one that it moves, if the vector length after it is `left`.
    #[inline(always)]
    fn end(&self, state: &VState, left: u16) -> usize
        requires fits { Fits state.now self.now }
        requires left { left ≤ state.now.conf.vl }
        ensures value { result ≡ moved_end (moved_by self.now state.now) left }
        ensures room { HasRoom self.now.segments result }
        ensures most { result ≤ GROUP_BYTES }
    {
        match self.op {
            UnitOp::FaultOnlyFirst => usize::from(left),
            UnitOp::Load | UnitOp::Store => self.count,
        }
    }

    /// Pass each element that it moves to the viewer, if the vector length after it is `left`.
    #[inline(always)]
    pub(crate) fn show<V: Viewer>(&self, state: &VState, left: u16, viewer: &mut V)
        requires fits { Fits state.now self.now }
        requires left { left ≤ state.now.conf.vl }
        requires viewer { V.has_room viewer.old (8 * GROUP_BYTES) }
        ensures seen { V.saw viewer.old (moved_elements state.now left (moved_by self.now state.now)) viewer.new }
        ensures room { (count : ℕ) → V.has_room viewer.old (count + 8 * GROUP_BYTES) → V.has_room viewer.new count }
    {
        let mask = mask_register(&state.file);
        let start = usize::from(state.vstart);
        let moves = Moves {
            segments: self.segments,
            addresses: self.addresses,
            body: Body::new(self.unmasked, &mask, start, self.end(state, left)),
        };
        moves.show(self.op, &state.file, viewer);
    }
}
