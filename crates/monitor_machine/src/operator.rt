//! Slices, and the operator's commands, which grant them.
ghost use Rattle.std.specs.Prelude.{◌≡◌, ◌≤◌, ◌++◌, [], ◌∷◌, false, Ok, length};
ghost use Rattle.rv_model.specs.commands.Operator.{granted_line, operator_parse};
ghost use Rattle.rv_model.specs.machine.Grants.{granted, grants, grants_of, operator_line, runs, slice_of};
ghost use Rattle.rv_model.specs.machine.Script.{after_events, printed_by_events, user_machine};
ghost use Rattle.rv_model.specs.machine.Turns.{AreInTurn};
ghost use Rattle.rv_model.specs.machine.Setup.{user_count};
ghost use Rattle.rv_model.specs.text.Lines.{text};
ghost use Rattle.monitor_machine.specs.MachineState.{SlicesAddUp};

use crate::machine::Machine;
use monitor_cmds::{Reply, Tag, parse_operator};
use rv_model::{OperatorCommand, User};
use std::alloc::Allocator;

impl<A: Allocator> Machine<'_, A> {
    /// Grant a slice to a user, and return whether the user's program was running. The reply is the
    /// stop line if the program stopped, and is empty if it is still running. If the program wasn't
    /// running, the reply is empty and nothing changes. No other user's machine changes.
    #[tactic(auto, unfolding(rv_model::specs::machine::World::event), using(crate::proofs::GrantLaws::stops_room_is_small))]
    pub fn slice(&mut self, user: User, reply: &mut Reply) -> bool
        ensures world { self.new.world
            ≡ after_events self.old.setup self.old.world (slice_of user false ∷ []) }
        ensures setup { self.new.setup ≡ self.old.setup }
        ensures eight { length self.new.world.parts ≡ user_count }
        ensures reply { reply.new
            ≡ printed_by_events self.old.setup self.old.world (slice_of user false ∷ []) }
        ensures ran { result ≡ runs (user_machine user self.old.world) }
        ensures silent { result ≡ false → reply.new ≡ [] }
        ensures same { result ≡ false → self.new ≡ self.old }

        // This slice and a later one add up to one slice of all their ticks.
        ensures adds_up { SlicesAddUp self.old user self.new reply.new }
    {
        reply.clear();
        self.users.grant(user, self.quantum, reply)
    }

    /// Grant at most `count` slices in turn to users whose programs are running; fewer only if none
    /// is running any more. The reply has a stop line for each program that stopped, at most one for
    /// each user. Return the number of slices.
    #[tactic(auto, using(crate::proofs::GrantLaws::stops_room_is_small))]
    fn grant_slices(&mut self, count: usize, reply: &mut Reply) -> usize
        ensures world { self.new.world
            ≡ after_events self.old.setup self.old.world (granted self.old.setup count self.old.world) }
        ensures setup { self.new.setup ≡ self.old.setup }
        ensures reply { reply.new
            ≡ printed_by_events self.old.setup self.old.world (granted self.old.setup count self.old.world) }
        ensures count { result ≡ length (granted self.old.setup count self.old.world) }
        ensures bound { length reply.new ≤ 640 }
    {
        reply.clear();
        for granted in 0..count {
            let Some(user) = self.users.take_turn() else {
                return granted;
            };
            self.users.grant(user, self.quantum, reply);
        }
        count
    }

    /// `* run U`: grant a slice to a user, if the user's program is running, and reply with the
    /// number of slices, 0 or 1.
    #[tactic(auto, using(crate::proofs::Steps::running))]
    fn execute_run(&mut self, user: User, reply: &mut Reply)
        ensures world { self.new.world
            ≡ after_events self.old.setup self.old.world
            (grants self.old.setup self.old.world (OperatorCommand.Run user)) }
        ensures setup { self.new.setup ≡ self.old.setup }
        ensures reply { reply.new ≡ printed_by_events self.old.setup self.old.world
            (grants self.old.setup self.old.world (OperatorCommand.Run user))
            ++ text 42 (granted_line (length (grants self.old.setup self.old.world (OperatorCommand.Run user))) ∷ []) }
    {
        reply.clear();
        let ran = self.users.grant(user, self.quantum, reply);
        monitor_cmds::granted_line(reply, usize::from(ran));
    }

    /// Execute a valid command of the operator, and replace the reply.
    fn execute_accepted(&mut self, command: OperatorCommand, reply: &mut Reply)
        ensures world { self.new.world
            ≡ after_events self.old.setup self.old.world (grants self.old.setup self.old.world command) }
        ensures setup { self.new.setup ≡ self.old.setup }
        ensures reply { reply.new ≡ printed_by_events self.old.setup self.old.world (grants self.old.setup self.old.world command)
            ++ text 42 (operator_line self.old.setup self.old.world (Ok command) ∷ []) }
    {
        match command {
            OperatorCommand::Slices(count) => {
                let granted = self.grant_slices(count.get(), reply);
                monitor_cmds::granted_line(reply, granted);
            }
            OperatorCommand::Run(user) => self.execute_run(user, reply),
            OperatorCommand::List => {
                reply.clear();
                monitor_cmds::list_line(reply, &self.users.run_states());
            }
            OperatorCommand::Stats => {
                reply.clear();
                monitor_cmds::stats_line(reply, &self.users.stats());
            }
        }
    }

    /// Execute one command of the operator, and replace the reply. `line` is the line without the
    /// star and the space after it. The reply has a line for each program that stopped, and then
    /// the operator's line. The refusals are an unknown command (E03) and a wrong argument (E04).
    /// Each slice in turn goes to the user whose turn it is.
    #[tactic(auto, using(rv_model::proofs::machine_lemmas::Turns::grants_are_in_turn))]
    pub fn operator(&mut self, line: &[u8], reply: &mut Reply)
        ensures world { self.new.world
            ≡ after_events self.old.setup self.old.world
            (grants_of self.old.setup self.old.world (operator_parse line.now)) }
        ensures setup { self.new.setup ≡ self.old.setup }
        ensures reply { reply.new ≡ printed_by_events self.old.setup self.old.world
            (grants_of self.old.setup self.old.world (operator_parse line.now))
            ++ text 42 (operator_line self.old.setup self.old.world (operator_parse line.now) ∷ []) }
        ensures in_turn { AreInTurn self.old.setup self.old.world
            (grants_of self.old.setup self.old.world (operator_parse line.now)) }
    {
        match parse_operator(line) {
            Ok(command) => self.execute_accepted(command, reply),
            Err(refusal) => {
                reply.clear();
                monitor_cmds::refused(reply, Tag::Common, refusal);
            }
        }
    }
}
