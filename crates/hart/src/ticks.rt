//! The number of ticks that vector instructions take.
ghost use Rattle.std.specs.Prelude.{◌≡◌, ◌≤◌, ℕ};
ghost use Rattle.rv_model.specs.declared.instructions.instruction.Instr.TheVariants as instr;
ghost use Rattle.rv_model.specs.step.Hart.{HartState};
ghost use Rattle.rv_model.specs.step.Step.{after_vector, vector_ends, vector_executed, vector_step};

use rv_model::{AccessInstr, GROUP_BYTES, VEnd, VState};
use vector_memory::index_count;

/// Maximum number of ticks of an instruction. A load or store takes one tick for each index, at most 256; any
/// other instruction takes one.
pub const MAX_TICKS: usize = GROUP_BYTES;

/// Return the ticks of a load or store with a limit of `limit` ticks. `vl` and `vstart` are from the state
/// before it, `state` is the vector state after it. It takes one tick for each index that it attempted, and
/// at least one. If it reduced the length, it is a fault-only-first load, and the last index that it
/// attempted is the new length.
#[inline(always)]
pub(crate) fn access_ticks(
    access: &AccessInstr,
    limit: usize,
    vl: usize,
    vstart: usize,
    state: &VState,
    end: VEnd,
) -> usize
    ensures some { 1 ≤ limit → 1 ≤ result }
    ensures executed { (word : ℕ) (before after : HartState)
        → before.vector.conf.vl ≡ vl → before.vector.vstart ≡ vstart → after.vector ≡ state.now
        → vector_executed limit (instr.Access access.now) before ≡ vector_ends end after
        → vector_step limit (instr.Access access.now) word before ≡ after_vector result end word after }
{
    match end {
        VEnd::Done => {
            let left = usize::from(state.conf.vl());
            if left < vl {
                return left.saturating_sub(vstart) + 1;
            }
            index_count(access, vl).saturating_sub(vstart).max(1)
        }
        VEnd::Illegal => 1,
        VEnd::Fault { .. } => usize::from(state.vstart).saturating_sub(vstart) + 1,
        VEnd::Cut { .. } => limit,
    }
}
