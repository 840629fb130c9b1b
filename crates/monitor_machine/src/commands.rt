//! Execution of a user's commands.
ghost use Rattle.std.specs.Prelude.{◌≡◌, ◌+◌, true, false};
ghost use Rattle.lazy_context.specs.LazyUnit.{record_of};
ghost use Rattle.rv_model.specs.commands.Commands.{command_outcome, needs_stopped, of_absent, of_present};
ghost use Rattle.rv_model.specs.machine.VectorUnit.{unit_after_uses};
ghost use Rattle.rv_model.specs.text.Lines.{text};
ghost use Rattle.monitor_machine.specs.Images.{named_images};
ghost use Rattle.monitor_machine.specs.PartMoves.{PartsMove, machine_of};
ghost use Rattle.monitor_machine.specs.CommandOutcomes.{LeavesParts, MovesParts, PrintsFromParts};

use crate::answers::refuse;
use crate::image::Image;
use crate::parts::Parts;
use crate::trace::Trace;
use crate::{breakpoints, entering, memory, programs, registers, running};
use monitor_cmds::Reply;
use rv_model::{Cmd, EnteringCommand, Refusal, RunningCommand};
use std::alloc::Allocator;

/// Execute a command of a user, and replace the reply.
#[tactic(auto, unfolding(rv_model::specs::commands::Commands::command_outcome), using(crate::proofs::Steps::either))]
pub(crate) fn execute<A: Allocator>(
    images: &[Image<'_>],
    parts: &mut Parts<'_, '_, '_, A>,
    trace: &mut Trace<A>,
    cmd: &Cmd<'_>,
    reply: &mut Reply,
)
    ensures next { machine_of parts.new trace.new
        ≡ (command_outcome (named_images images.now) cmd.now (machine_of parts.old trace.old)).next }
    ensures parts { PartsMove parts.old parts.new (unit_after_uses parts.old.user
        (command_outcome (named_images images.now) cmd.now (machine_of parts.old trace.old)).uses
        (record_of parts.old.unit.now)) }
    ensures reply { reply.new ≡ text (48 + parts.old.user)
        (command_outcome (named_images images.now) cmd.now (machine_of parts.old trace.old)).lines }
{
    if !parts.context.entered {
        execute_absent(parts, trace, cmd, reply);
    } else if parts.context.running && needs_stopped(cmd) {
        refuse(reply, parts.user, Refusal::Running);
    } else {
        execute_present(images, parts, trace, cmd, reply);
    }
}

/// Return whether a command needs a stopped program.
fn needs_stopped(cmd: &Cmd<'_>) -> bool
    ensures { result ≡ needs_stopped cmd.now }
{
    match cmd {
        Cmd::Entering(EnteringCommand::Enter)
        | Cmd::Running(RunningCommand::Stop | RunningCommand::State) => false,
        _ => true,
    }
}

/// Execute a command of an absent user: only `enter` is accepted.
#[tactic(auto, unfolding(rv_model::specs::commands::Commands::of_absent), using(crate::proofs::Steps::absent))]
fn execute_absent<A: Allocator>(
    parts: &mut Parts<'_, '_, '_, A>,
    trace: &mut Trace<A>,
    cmd: &Cmd<'_>,
    reply: &mut Reply,
)
    requires absent { parts.old.context.now.entered ≡ false }
    ensures next { machine_of parts.new trace.new ≡ (of_absent cmd.now).next }
    ensures parts { PartsMove parts.old parts.new
        (unit_after_uses parts.old.user (of_absent cmd.now).uses (record_of parts.old.unit.now)) }
    ensures reply { reply.new ≡ text (48 + parts.old.user) (of_absent cmd.now).lines }
{
    if let Cmd::Entering(command) = cmd {
        entering::execute_absent(parts, trace, *command, reply);
    } else {
        refuse(reply, parts.user, Refusal::NotEntered);
    }
}

/// Execute a command of a user who has entered.
#[tactic(auto, unfolding(rv_model::specs::commands::Commands::of_present), using(crate::proofs::Steps::groups))]
fn execute_present<A: Allocator>(
    images: &[Image<'_>],
    parts: &mut Parts<'_, '_, '_, A>,
    trace: &mut Trace<A>,
    cmd: &Cmd<'_>,
    reply: &mut Reply,
)
    requires present { parts.old.context.now.entered ≡ true }
    ensures next { LeavesParts (of_present (named_images images.now) cmd.now) parts.old trace.old parts.new trace.new }
    ensures parts { MovesParts (of_present (named_images images.now) cmd.now) parts.old trace.old parts.new }
    ensures reply { PrintsFromParts (of_present (named_images images.now) cmd.now) parts.old trace.old reply.new }
{
    let user = parts.user;
    match cmd {
        Cmd::Entering(command) => entering::execute(parts, &*trace, *command, reply),
        Cmd::Memory(command) => memory::execute(&mut *parts.pool, user, command, reply),
        Cmd::Registers(command) => {
            registers::execute(&mut *parts.context, &mut *parts.unit, user, command, reply)
        }
        Cmd::Programs(command) => programs::execute(images, parts, trace, command, reply),
        Cmd::Breakpoints(command) => {
            breakpoints::execute(&mut *parts.context, user, command, reply)
        }
        Cmd::Running(command) => running::execute(parts, trace, command, reply),
    }
}
