//! The machine of eight users.
ghost use Rattle.std.specs.Prelude.{◌≡◌, [], ◌∷◌, length, None, IsOk, IfOk, IfSome, IsErrOf, IsOkUnless};
ghost use Rattle.rv_model.specs.machine.Script.{commands, after_events, printed_by_events, new_world};
ghost use Rattle.rv_model.specs.machine.Setup.{user_count};
ghost use Rattle.monitor_machine.specs.MachineState.{after_line, line_output};
ghost use Rattle.monitor_machine.specs.Images.{setup_of};
ghost use Rattle.monitor_machine.specs.NewFaults.{new_fault};

use crate::addressee::{Addressee, addressee_of};
use crate::image::Image;
use crate::new_fault::{NewFault, fault_of};
use crate::users::Users;
use monitor_cmds::Reply;
use rv_model::User;
use std::alloc::{Allocator, Global};
use std::marker::Model;

/// Eight users, each with a private machine, and the images that they can load.
#[derive(Drop)]
pub struct Machine<'a, A: Allocator = Global> {
    pub(crate) quantum: usize,
    pub(crate) images: &'a [Image<'a>],
    pub(crate) users: Users<A>,
}

impl<'a, A: Allocator> Model for Machine<'a, A> {
    ghost use Rattle.std.specs.Coded.{codes};
    ghost use Rattle.std.specs.Prelude.{◌≡◌, length};
    ghost use Rattle.rv_model.specs.machine.Setup.{user_count};
    ghost use Rattle.rv_model.specs.lending.StoredMemory.{coded_memory};
    ghost use Rattle.monitor_machine.specs.Images.{setup_of};
    ghost use Rattle.monitor_machine.specs.MachineState.{MachineState};

    ghost Value = { MachineState };

    ghost coded = { Prim.hlevel (codes, coded_memory) };

    ghost view = { λ m. record { setup = setup_of m.quantum m.images.now; world = m.users } };

    ghost invariant = { λ m. length m.users.parts ≡ user_count };
}

impl<'a, A: Allocator> Machine<'a, A> {
    /// Create a machine with absent users and slices of `quantum` ticks. Return the first fault
    /// that applies; `NoMemory` is the last. No later call allocates memory.
    #[tactic(auto, using(crate::proofs::PartLaws::new_are_eight))]
    // Out of line, as the calls below it are: inlined, each adds copies of the machine to the caller's stack frame.
    #[inline(never)]
    pub fn new(alloc: A, quantum: usize, images: &'a [Image<'a>]) -> Result<Self, NewFault>
    where
        A: Clone,
        ensures new { IfOk result (λ machine.
            machine ≡ record { setup = setup_of quantum images.now; world = new_world }) }
        ensures faultless { IsOk result → new_fault (setup_of quantum images.now) ≡ None }
        ensures fault { IfSome (new_fault (setup_of quantum images.now)) (λ fault. IsErrOf result fault) }
        ensures memory { new_fault (setup_of quantum images.now) ≡ None →
            IsOkUnless result NewFault.NoMemory }
    {
        if let Some(fault) = fault_of(quantum, images) {
            return Err(fault);
        }
        let Ok(users) = Users::new(alloc) else {
            return Err(NewFault::NoMemory);
        };
        Ok(Machine {
            quantum,
            images,
            users,
        })
    }

    /// Execute one command of a user, and replace the reply. `line` is the line without the user's
    /// digit and the space after it. No other user's machine changes.
    #[tactic(auto, unfolding(rv_model::specs::machine::World::event))]
    pub fn command(&mut self, user: User, line: &[u8], reply: &mut Reply)
        ensures world { self.new.world
            ≡ after_events self.old.setup self.old.world (commands user line.now ∷ []) }
        ensures setup { self.new.setup ≡ self.old.setup }
        ensures eight { length self.new.world.parts ≡ user_count }
        ensures reply { reply.new
            ≡ printed_by_events self.old.setup self.old.world (commands user line.now ∷ []) }
    {
        self.users.command(self.images, user, line, reply);
    }

    /// Execute one line of a script, without its newline, and replace the reply. The line is a
    /// command of a user or of the operator, after the digit or the star and a space. The reply to
    /// an empty line is empty. A line of more than 1,024 bytes, or without such a prefix, is
    /// refused.
    #[tactic(auto, unfolding(rv_model::specs::machine::World::event,
    // The effect of a line, and its output.
    rv_model::specs::machine::Script::world_after, rv_model::specs::machine::Script::printed_by_line,
    // The output lines that begin with a star.
    rv_model::specs::machine::Script::common))]
    pub fn answer(&mut self, line: &[u8], reply: &mut Reply)
        ensures machine { self.new ≡ after_line self.old line.now }
        ensures eight { length self.new.world.parts ≡ user_count }
        ensures reply { reply.new ≡ line_output self.old line.now }
    {
        reply.clear();
        let images = self.images;
        match addressee_of(line) {
            Addressee::Nobody => {}
            Addressee::TooLong => monitor_cmds::line_too_long(reply),
            Addressee::BadPrefix => monitor_cmds::bad_prefix(reply),
            Addressee::Operator => self.operator(&line[2..], reply),
            Addressee::User(user) => self.users.command(images, user, &line[2..], reply),
        }
    }
}
