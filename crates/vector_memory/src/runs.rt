//! Loads and stores of segments, with their effects on the vector state ("V" Vector Extension 1.0, sections
//! 7.4 to 7.9).
ghost use Rattle.std.specs.Prelude.{◌≡◌};
ghost use Rattle.vector_memory.specs.Runs.{RunLeaves, segments_run};

use crate::addresses::Addresses;
use crate::ends::leave;
use crate::moves::Moves;
use crate::user_bytes::UserBytes;
use rv_model::instructions::operations::UnitOp;
use rv_model::{MemEnd, VState};

/// Limit on the number of indices of a load or store, and whether masked-off elements become all ones.
#[derive(Clone, Copy)]
pub(crate) struct Extent {
    pub limit: usize,
    pub fill_masked_off: bool,
}

impl<A: Addresses> Moves<'_, A> {
    /// Load or store the segments; update `vstart`, and the vector length after a fault-only-first load.
    #[inline(always)]
    pub(crate) fn run<M: UserBytes>(
        &self,
        op: UnitOp,
        extent: Extent,
        memory: &mut M,
        state: &mut VState,
    ) -> MemEnd
        requires { op ≡ UnitOp.FaultOnlyFirst → self.now.body.end ≡ state.old.conf.vl }
        ensures run { RunLeaves (segments_run op extent.limit extent.fill_masked_off self.now.segments self.now.body
            (A.address self.now.addresses) state.old (M.memory memory.old)) result state.new (M.memory memory.new) }
        ensures others { memory.new ≡ M.with_memory memory.old (M.memory memory.new) }
    {
        match op {
            UnitOp::Load => leave(self.load(memory, extent, &mut state.file), false, state),
            UnitOp::FaultOnlyFirst => leave(
                self.load(memory, extent, &mut state.file),
                true,
                state,
            ),
            UnitOp::Store => leave(self.store(&state.file, extent.limit, memory), false, state),
        }
    }
}
