//! Execution of commands on breakpoints.
ghost use Rattle.std.specs.Prelude.{◌≡◌};
ghost use Rattle.rv_model.specs.commands.Breakpoints.{breakpoint_command, removes_breakpoint, sets_breakpoint};
ghost use Rattle.monitor_machine.specs.CommandOutcomes.{LeavesContext, PrintsFromContext};

use crate::answers::{accept, refuse};
use crate::context::Context;
use monitor_cmds::{Reply, Tag};
use rv_model::{BreakpointCommand, Refusal, User};

/// Execute a command on the breakpoints of a user who has entered, and replace the reply.
#[tactic(auto, unfolding(rv_model::specs::commands::Breakpoints::breakpoint_command))]
pub(crate) fn execute(
    context: &mut Context,
    user: User,
    command: &BreakpointCommand,
    reply: &mut Reply,
)
    ensures next { LeavesContext (breakpoint_command command.now) context.old context.new }
    ensures entered { context.new.entered ≡ context.old.entered }
    ensures reply { PrintsFromContext (breakpoint_command command.now) context.old user reply.new }
{
    match command {
        BreakpointCommand::Break(addr) => set(context, user, *addr, reply),
        BreakpointCommand::Unbreak(addr) => remove(context, user, *addr, reply),
        BreakpointCommand::Breaks => {
            reply.clear();
            monitor_cmds::breaks_line(reply, Tag::User(user), context.breakpoints.as_slice());
        }
    }
}

/// `break`: set a breakpoint, if there are fewer than 16 and none is at this address.
fn set(context: &mut Context, user: User, addr: u64, reply: &mut Reply)
    ensures next { LeavesContext (sets_breakpoint addr) context.old context.new }
    ensures entered { context.new.entered ≡ context.old.entered }
    ensures reply { PrintsFromContext (sets_breakpoint addr) context.old user reply.new }
{
    if context.breakpoints.is_full() {
        refuse(reply, user, Refusal::BreakpointLimit);
    } else if context.breakpoints.contains(addr) {
        refuse(reply, user, Refusal::Breakpoint);
    } else {
        context.breakpoints.insert(addr);
        accept(reply, user);
    }
}

/// `unbreak`: remove the breakpoint at this address, if there is one.
fn remove(context: &mut Context, user: User, addr: u64, reply: &mut Reply)
    ensures next { LeavesContext (removes_breakpoint addr) context.old context.new }
    ensures entered { context.new.entered ≡ context.old.entered }
    ensures reply { PrintsFromContext (removes_breakpoint addr) context.old user reply.new }
{
    if context.breakpoints.contains(addr) {
        context.breakpoints.remove(addr);
        accept(reply, user);
    } else {
        refuse(reply, user, Refusal::Breakpoint);
    }
}
