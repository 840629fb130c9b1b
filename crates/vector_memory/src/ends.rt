//! `vstart` and the vector length after a load or store ("V" Vector Extension 1.0, sections 3.7, 7.7 and
//! 17.1).
ghost use Rattle.std.specs.Prelude.{◌≡◌, ℕ, true, false, cond, nat_lt};
ghost use Rattle.rv_model.specs.accesses.AccessRuns.{access_ends};
ghost use Rattle.rv_model.specs.declared.step.memory_end.MemEnd.TheVariants.{Done, Cut};
ghost use Rattle.rv_model.specs.memory.Memory.{Memory};
ghost use Rattle.vector_memory.specs.Runs.{RunLeaves};
ghost use Rattle.vector_memory.specs.SegmentRoom.{StopsBefore};

use rv_model::{GROUP_BYTES, MemEnd, VState};

/// Return how an instruction with `end` indices ends if none of its indices below `stop` faults.
#[inline(always)]
pub(crate) fn end_without_fault(stop: usize, end: usize) -> MemEnd
    ensures value { result ≡ cond (nat_lt stop end) (Cut stop) Done }
    ensures least { StopsBefore end result }
{
    if stop < end {
        MemEnd::Cut { index: stop }
    } else {
        MemEnd::Done
    }
}

/// Set `vstart` to the index at which the instruction stopped, or to 0 if it is done. A fault of a
/// fault-only-first load (`first_only`) at an index other than 0 reduces the length to that index, and the
/// load is done.
#[inline(always)]
pub(crate) fn leave(end: MemEnd, first_only: bool, state: &mut VState) -> MemEnd
    requires length { first_only ≡ true → StopsBefore state.old.conf.vl end }
    requires most { StopsBefore GROUP_BYTES end }
    ensures { (count : ℕ) (memory : Memory)
        → RunLeaves (access_ends first_only count state.old memory end) result state.new memory }
{
    match end {
        MemEnd::Done => state.vstart = 0,
        MemEnd::Cut { index } => state.vstart = index as u8,
        MemEnd::Fault { index, .. } => {
            if first_only && 0 < index {
                state.conf = state.conf.shortened(index as u16);
                state.vstart = 0;
                return MemEnd::Done;
            }
            state.vstart = index as u8;
        }
    }
    end
}
