//! Execution of commands on a user's registers, and on the policy for agnostic elements.
ghost use Rattle.std.specs.Prelude.{◌≡◌, ◌+◌, Some, List, ℕ};
ghost use Rattle.lazy_context.specs.LazyUnit.{IsSettled, record_of, state_of};
ghost use Rattle.rv_model.specs.memory.Memory.{Memory};
ghost use Rattle.rv_model.specs.commands.Registers.{register_command};
ghost use Rattle.rv_model.specs.machine.VectorUnit.{unit_after_uses};
ghost use Rattle.rv_model.specs.text.Lines.{text};
ghost use Rattle.monitor_machine.specs.Parts.{UnitMoves, present};

use crate::context::Context;
use lazy_context::Unit;
use monitor_cmds::{Reply, Tag};
use rv_model::{RegisterCommand, User};

/// Execute a command on the registers of a user who has entered, or on the policy for agnostic
/// elements, and replace the reply. Vector registers are read and written where the user's vector
/// state is, in the vector unit or in the save area; no switch takes place.
#[tactic(auto, unfolding(rv_model::specs::commands::Registers::register_command), using(crate::proofs::Steps::stays))]
pub(crate) fn execute(
    context: &mut Context,
    unit: &mut Unit,
    user: User,
    command: &RegisterCommand,
    reply: &mut Reply,
)
    requires settled { IsSettled unit.old }
    ensures next { (trace : List ℕ) (memory : Memory)
        → (register_command command.now (present context.old trace (state_of unit.old user) memory)).next
        ≡ Some (present context.new trace (state_of unit.new user) memory) }
    ensures entered { context.new.entered ≡ context.old.entered }
    ensures unit { (trace : List ℕ) (memory : Memory) → UnitMoves user unit.old unit.new (unit_after_uses user
        (register_command command.now (present context.old trace (state_of unit.old user) memory)).uses
        (record_of unit.old)) }
    ensures reply { (trace : List ℕ) (memory : Memory) → reply.new
        ≡ text (48 + user) (register_command command.now
        (present context.old trace (state_of unit.old user) memory)).lines }
{
    let tag = Tag::User(user);
    reply.clear();
    match command {
        RegisterCommand::Set { register, value } => {
            context.scalar.write(*register, *value);
            monitor_cmds::ok(reply, tag);
        }
        RegisterCommand::Regs => monitor_cmds::registers(reply, tag, &context.scalar),
        RegisterCommand::SetPc(addr) => {
            context.scalar.pc = *addr;
            monitor_cmds::ok(reply, tag);
        }
        RegisterCommand::Vreg { register, width } => {
            let state = unit.peek(user);
            monitor_cmds::vreg_line(
                reply,
                tag,
                *register,
                *width,
                state.file.register(*register),
            );
        }
        RegisterCommand::Vset { register, bytes } => {
            unit.poke(user, *register, bytes.as_array());
            monitor_cmds::ok(reply, tag);
        }
        RegisterCommand::Vcsr => monitor_cmds::vcsr_line(reply, tag, &unit.peek(user)),
        RegisterCommand::SetPolicy(policy) => {
            context.policy = *policy;
            monitor_cmds::ok(reply, tag);
        }
    }
}
