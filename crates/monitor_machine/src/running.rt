//! Execution of commands that run instructions, and of commands that show a program's state and
//! output.
ghost use Rattle.std.specs.Prelude.{◌≡◌, true};
ghost use Rattle.rv_model.specs.commands.Running.{halts, running_command};
ghost use Rattle.monitor_machine.specs.Parts.{present};
ghost use Rattle.monitor_machine.specs.CommandOutcomes.{LeavesContext, LeavesParts, MovesParts, PrintsFromContext, PrintsFromParts};

use crate::answers::refuse;
use crate::context::Context;
use crate::parts::Parts;
use crate::stepping::run_steps;
use crate::trace::Trace;
use monitor_cmds::{Reply, Tag};
use rv_model::{Refusal, RunningCommand, User};
use std::alloc::Allocator;

/// Execute a command that runs instructions of a user who has entered, or shows the program's state
/// or output, and replace the reply.
#[tactic(auto, unfolding(rv_model::specs::commands::Running::running_command), using(crate::proofs::Steps::telling))]
pub(crate) fn execute<A: Allocator>(
    parts: &mut Parts<'_, '_, '_, A>,
    trace: &mut Trace<A>,
    command: &RunningCommand,
    reply: &mut Reply,
)
    requires present { parts.old.context.now.entered ≡ true }
    ensures next { LeavesParts (running_command command.now) parts.old trace.old parts.new trace.new }
    ensures parts { MovesParts (running_command command.now) parts.old trace.old parts.new }
    ensures reply { PrintsFromParts (running_command command.now) parts.old trace.old reply.new }
{
    let user = parts.user;
    let tag = Tag::User(user);
    reply.clear();
    match command {
        RunningCommand::Step(count) => {
            let count = count.get();
            let stop = run_steps(parts, trace, count);
            monitor_cmds::step_line(reply, tag, count, parts.context.scalar.pc, stop);
        }
        RunningCommand::Go => {
            parts.context.running = true;
            parts.context.fresh = true;
            monitor_cmds::running_line(reply, tag, parts.context.scalar.pc);
        }
        RunningCommand::Stop => stop(&mut *parts.context, user, reply),
        RunningCommand::State => {
            monitor_cmds::state_line(reply, tag, parts.context.running, parts.context.scalar.pc);
        }
        RunningCommand::Trace => trace.print(reply, tag),
        RunningCommand::Out => {
            monitor_cmds::out_line(reply, tag, parts.context.output.as_slice());
            parts.context.output.clear();
        }
    }
}

/// `stop`: stop the program at its current program counter, if it is running.
fn stop(context: &mut Context, user: User, reply: &mut Reply)
    ensures next { LeavesContext halts context.old context.new }
    ensures entered { context.new.entered ≡ context.old.entered }
    ensures reply { PrintsFromContext halts context.old user reply.new }
{
    if context.running {
        context.running = false;
        reply.clear();
        monitor_cmds::stopped_line(reply, Tag::User(user), context.scalar.pc);
    } else {
        refuse(reply, user, Refusal::NotRunning);
    }
}
