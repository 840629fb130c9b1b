//! A slice of one user.
ghost use Rattle.std.specs.Prelude.{◌≡◌, ◌+◌, ◌≤◌, ◌++◌, length};
ghost use Rattle.lazy_context.specs.LazyUnit.{record_of};
ghost use Rattle.rv_model.specs.machine.Cuts.{IsConfigured};
ghost use Rattle.rv_model.specs.machine.Grants.{runs};
ghost use Rattle.rv_model.specs.machine.World.{sliced};
ghost use Rattle.rv_model.specs.machine.VectorUnit.{unit_after_uses};
ghost use Rattle.rv_model.specs.text.Lines.{text};
ghost use Rattle.monitor_machine.specs.PartMoves.{PartsMove, machine_of};
ghost use Rattle.monitor_machine.specs.StopLineBounds.{stop_line_bound};

use crate::parts::Parts;
use crate::stepping;
use crate::trace::Trace;
use monitor_cmds::{Reply, Tag};
use std::alloc::Allocator;

/// Run a slice of `quantum` ticks of a user, if the user's program is running, and append the stop
/// line to the reply if the program stopped. Return whether the program was running.
#[tactic(auto, unfolding(rv_model::specs::machine::World::sliced), using(crate::proofs::Steps::granting))]
pub(crate) fn run_slice<A: Allocator>(
    parts: &mut Parts<'_, '_, '_, A>,
    trace: &mut Trace<A>,
    quantum: usize,
    reply: &mut Reply,
) -> bool
    requires room { length reply.old + stop_line_bound (machine_of parts.old trace.old) ≤ 4096 }
    ensures next { machine_of parts.new trace.new ≡ (sliced quantum (machine_of parts.old trace.old)).next }
    ensures parts { PartsMove parts.old parts.new (unit_after_uses parts.old.user
        (sliced quantum (machine_of parts.old trace.old)).uses (record_of parts.old.unit.now)) }
    ensures reply { reply.new
        ≡ reply.old ++ text (48 + parts.old.user) (sliced quantum (machine_of parts.old trace.old)).lines }
    ensures ran { result ≡ runs (machine_of parts.old trace.old) }
    ensures bound { length reply.new + stop_line_bound (machine_of parts.new trace.new)
        ≤ length reply.old + stop_line_bound (machine_of parts.old trace.old) }
    ensures configured { IsConfigured (machine_of parts.old trace.old) }
{
    // For the proof alone: the vector length is valid for the vector type.
    parts.unit.length_law(parts.user);
    if !parts.context.is_running() {
        return false;
    }
    if let Some(stop) = stepping::run_ticks(parts, trace, quantum) {
        parts.context.running = false;
        monitor_cmds::stop_line(reply, Tag::User(parts.user), parts.context.scalar.pc, stop);
    }
    true
}
