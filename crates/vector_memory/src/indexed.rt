//! Indexed loads and stores ("V" Vector Extension 1.0, sections 7.6 and 7.8).
ghost use Rattle.std.specs.Prelude.{◌≡◌, ◌+◌, ◌*◌, ◌%◌, ◌^◌, ℕ};
ghost use Rattle.rv_model.specs.accesses.VectorAccess.{unit_direction};
ghost use Rattle.rv_model.specs.elements.Arithmetic.{body_of, group_element};
ghost use Rattle.vector_memory.specs.MovedElements.{elements_before};
ghost use Rattle.vector_memory.specs.Offsets.{OffsetsFit, offset_addresses};
ghost use Rattle.vector_memory.specs.Runs.{RunLeaves, segments_run};

use crate::addresses::Indexed;
use crate::moves::Moves;
use crate::runs::Extent;
use crate::segments::Segments;
use crate::shown::Viewer;
use crate::user_bytes::UserBytes;
use lane_arith::Body;
use reg_groups::{group_copy, mask_register};
use rv_model::instructions::operations::{Eew, UnitOp};
use rv_model::{GROUP_BYTES, MemEnd, VReg, VState};

/// An indexed load or store: whether it is unmasked, its segments, and their addresses. The segments are at
/// offsets in bytes from `base`. The offsets are a register group: its first register, the width of an
/// offset, and the multiplier in eighths of a register.
#[derive(Clone, Copy)]
pub(crate) struct IndexedTransfer {
    pub op: UnitOp,
    pub unmasked: bool,
    pub segments: Segments,
    pub base: u64,
    pub first: VReg,
    pub width: Eew,
    pub emul: u32,
}

impl IndexedTransfer {
    /// Execute it segment by segment; the vector length is the number of segments.
    #[inline(never)]
    pub(crate) fn run_segments<M: UserBytes>(
        &self,
        extent: Extent,
        memory: &mut M,
        state: &mut VState,
    ) -> MemEnd
        requires fits { OffsetsFit state.old self.now }
        ensures run { RunLeaves (segments_run self.now.op extent.limit extent.fill_masked_off self.now.segments
            (body_of self.now.unmasked state.old)
            (offset_addresses self.now state.old)
            state.old (M.memory memory.old)) result state.new (M.memory memory.new) }
        ensures others { memory.new ≡ M.with_memory memory.old (M.memory memory.new) }
    {
        let mask = mask_register(&state.file);
        let start = usize::from(state.vstart);
        let mut copy = [0; GROUP_BYTES];
        let moves = Moves {
            segments: self.segments,
            addresses: Indexed {
                base: self.base,
                offsets: group_copy(&state.file, self.first, self.emul, &mut copy),
                width: self.width,
            },
            body: Body::new(self.unmasked, &mask, start, usize::from(state.conf.vl())),
        };
        moves.run(self.op, extent, memory, state)
    }
    /// Pass each element that it moves to the viewer.
    #[inline(always)]
    pub(crate) fn show<V: Viewer>(&self, state: &VState, viewer: &mut V)
        requires fits { OffsetsFit state.now self.now }
        requires viewer { V.has_room viewer.old (8 * GROUP_BYTES) }
        ensures seen { V.saw viewer.old (elements_before (unit_direction self.now.op) self.now.segments
            (body_of self.now.unmasked state.now) (offset_addresses self.now state.now) state.now.file state.now.conf.vl)
            viewer.new }
        ensures room { (count : ℕ) → V.has_room viewer.old (count + 8 * GROUP_BYTES) → V.has_room viewer.new count }
    {
        let mask = mask_register(&state.file);
        let start = usize::from(state.vstart);
        let mut copy = [0; GROUP_BYTES];
        let moves = Moves {
            segments: self.segments,
            addresses: Indexed {
                base: self.base,
                offsets: group_copy(&state.file, self.first, self.emul, &mut copy),
                width: self.width,
            },
            body: Body::new(self.unmasked, &mask, start, usize::from(state.conf.vl())),
        };
        moves.show(self.op, &state.file, viewer);
    }
}
