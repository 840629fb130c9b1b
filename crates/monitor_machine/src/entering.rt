//! Execution of the commands that start and end a user's machine.
ghost use Rattle.std.specs.Prelude.{◌≡◌, ◌+◌, true, false};
ghost use Rattle.lazy_context.specs.LazyUnit.{record_of};
ghost use Rattle.rv_model.specs.commands.Entering.{entering_absent, entering};
ghost use Rattle.rv_model.specs.machine.VectorUnit.{unit_after_uses};
ghost use Rattle.rv_model.specs.text.Lines.{text};
ghost use Rattle.monitor_machine.specs.PartMoves.{PartsMove, machine_of};
ghost use Rattle.monitor_machine.specs.CommandOutcomes.{LeavesParts, MovesParts, PrintsFromParts};

use crate::answers::refuse;
use crate::context::Context;
use crate::parts::Parts;
use crate::trace::Trace;
use crate::user_adapters::memory_law;
use monitor_cmds::{Reply, Tag};
use rv_model::{EnteringCommand, Refusal};
use std::alloc::Allocator;

/// Execute a command of an absent user, and replace the reply.
#[tactic(auto, unfolding(rv_model::specs::commands::Entering::entering_absent), using(crate::proofs::Steps::entering))]
pub(crate) fn execute_absent<A: Allocator>(
    parts: &mut Parts<'_, '_, '_, A>,
    trace: &mut Trace<A>,
    command: EnteringCommand,
    reply: &mut Reply,
)
    requires absent { parts.old.context.now.entered ≡ false }
    ensures next { machine_of parts.new trace.new ≡ (entering_absent command).next }
    ensures parts { PartsMove parts.old parts.new
        (unit_after_uses parts.old.user (entering_absent command).uses (record_of parts.old.unit.now)) }
    ensures reply { reply.new ≡ text (48 + parts.old.user) (entering_absent command).lines }
{
    let user = parts.user;
    match command {
        EnteringCommand::Enter => {
            // For the proof alone: the pool has a memory of the user.
            memory_law(&*parts.pool, user);
            *parts.context = Context::entered();
            trace.clear();
            parts.unit.discard(user);
            parts.pool.drop_user(user);
            reply.clear();
            monitor_cmds::entered(reply, Tag::User(user));
        }
        EnteringCommand::Leave => refuse(reply, user, Refusal::NotEntered),
    }
}

/// Execute a command of a user who has entered, and replace the reply.
#[tactic(auto, unfolding(rv_model::specs::commands::Entering::entering), using(crate::proofs::Steps::leaving))]
pub(crate) fn execute<A: Allocator>(
    parts: &mut Parts<'_, '_, '_, A>,
    trace: &Trace<A>,
    command: EnteringCommand,
    reply: &mut Reply,
)
    requires present { parts.old.context.now.entered ≡ true }
    ensures next { LeavesParts (entering command) parts.old trace.now parts.new trace.now }
    ensures parts { MovesParts (entering command) parts.old trace.now parts.new }
    ensures reply { PrintsFromParts (entering command) parts.old trace.now reply.new }
{
    let user = parts.user;
    match command {
        EnteringCommand::Enter => refuse(reply, user, Refusal::AlreadyEntered),
        EnteringCommand::Leave => {
            // For the proof alone: the pool has a memory of the user.
            memory_law(&*parts.pool, user);
            *parts.context = Context::new();
            parts.unit.discard(user);
            parts.pool.drop_user(user);
            reply.clear();
            monitor_cmds::left(reply, Tag::User(user));
        }
    }
}
