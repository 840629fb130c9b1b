//! The state of a machine's eight users, and whose turn it is.
ghost use Rattle.std.specs.Prelude.{◌≡◌, ◌+◌, ◌≤◌, ◌++◌, [], length, map, replicate, IfOk, IfNone, IfSome};
ghost use Rattle.rv_model.specs.commands.Commands.{commanded, parse as parse_spec};
ghost use Rattle.rv_model.specs.machine.Cuts.{IsConfigured};
ghost use Rattle.rv_model.specs.machine.Grants.{next_running, runs, run_state};
ghost use Rattle.rv_model.specs.machine.World.{sliced};
ghost use Rattle.rv_model.specs.machine.Script.{new_world, user_machine};
ghost use Rattle.rv_model.specs.machine.Setup.{user_count};
ghost use Rattle.rv_model.specs.machine.VectorUnit.{stats_of};
ghost use Rattle.rv_model.specs.text.Lines.{text};
ghost use Rattle.monitor_machine.specs.Images.{named_images};
ghost use Rattle.monitor_machine.specs.MachineState.{after_command, after_slice};
ghost use Rattle.monitor_machine.specs.Parts.{context_run_state, is_running, new_context};
ghost use Rattle.monitor_machine.specs.StopLineBounds.{stop_lines_bound};

use crate::answers::refuse;
use crate::commands::execute;
use crate::context::Context;
use crate::image::Image;
use crate::parts::Parts;
use crate::slices::run_slice;
use crate::trace::Trace;
use lazy_context::Unit;
use monitor_cmds::{Reply, parse};
use rv_model::{RunState, Stats, USER_COUNT, User};
use slice_sched::next;
use std::alloc::{AllocError, Allocator};
use std::marker::Model;
use user_mem::{NoMemory, Pool};

/// The contexts and traces of the eight users, the one vector unit with their vector states, the
/// pool with their memories, and the user who had the last turn.
#[derive(Drop)]
pub(crate) struct Users<A: Allocator> {
    contexts: [Context; USER_COUNT],
    traces: Vec<Trace<A>, A>,
    unit: Unit,
    pool: Pool<A>,
    cursor: User,
}

impl<A: Allocator> Model for Users<A> {
    ghost use Rattle.std.specs.Coded.{codes};
    ghost use Rattle.rv_model.specs.lending.StoredMemory.{coded_memory};
    ghost use Rattle.rv_model.specs.machine.Script.{World};
    ghost use Rattle.monitor_machine.specs.Parts.{world_of, IsWhole};

    ghost Value = { World };

    ghost coded = { Prim.hlevel (codes, coded_memory) };

    ghost view = { λ u. world_of u.contexts u.traces.items u.unit u.pool u.cursor };

    ghost invariant = { λ u. IsWhole u.contexts u.traces.items u.unit u.pool };
}

/// Create eight contexts of absent users.
fn absent_contexts() -> [Context; USER_COUNT]
    ensures { result ≡ replicate user_count new_context }
{
    [
        Context::new(),
        Context::new(),
        Context::new(),
        Context::new(),
        Context::new(),
        Context::new(),
        Context::new(),
        Context::new(),
    ]
}

/// Create eight empty traces, or fail if memory runs out.
// Out of line: with its loop in `Users::new`, LLVM copies the fault's bytes from a second result of 217 KB.
#[inline(never)]
fn empty_traces<A: Allocator + Clone>(alloc: &A) -> Result<Vec<Trace<A>, A>, AllocError>
    ensures { IfOk result (λ traces. traces.items ≡ replicate user_count []) }
{
    let mut traces = Vec::with_capacity(alloc.clone()?, USER_COUNT)?;
    for _ in 0..USER_COUNT {
        traces.push(Trace::new(alloc.clone()?)?)?;
    }
    Ok(traces)
}

/// Return whether the program of each context is running.
fn running_of(contexts: &[Context; USER_COUNT]) -> [bool; USER_COUNT]
    ensures { result ≡ map is_running contexts.now }
{
    let mut running = [false; USER_COUNT];
    for index in 0..USER_COUNT {
        running[index] = contexts[index].is_running();
    }
    running
}

/// Return the state of each context's program.
fn run_states_of(contexts: &[Context; USER_COUNT]) -> [RunState; USER_COUNT]
    ensures { result ≡ map context_run_state contexts.now }
{
    let mut run_states = [RunState::Absent; USER_COUNT];
    for index in 0..USER_COUNT {
        run_states[index] = contexts[index].run_state();
    }
    run_states
}

impl<A: Allocator> Users<A> {
    /// Create eight absent users, or fail if memory runs out.
    #[tactic(auto, using(crate::proofs::PartLaws::new_users))]
    #[inline(never)]
    pub(crate) fn new(alloc: A) -> Result<Self, NoMemory>
    where
        A: Clone,
        ensures { IfOk result (λ users. users ≡ new_world) }
    {
        let Ok(traces) = empty_traces(&alloc) else {
            return Err(NoMemory);
        };
        let pool = Pool::new(alloc)?;
        Ok(Users {
            contexts: absent_contexts(),
            traces,
            unit: Unit::new(),
            pool,
            cursor: User::at_index(USER_COUNT - 1),
        })
    }

    /// Execute one command of a user, and replace the reply.
    #[tactic(auto, using(crate::proofs::PartLaws::part_put_back))]
    pub(crate) fn command(
        &mut self,
        images: &[Image<'_>],
        user: User,
        line: &[u8],
        reply: &mut Reply,
    )
        ensures world { self.new ≡ after_command (named_images images.now) user line.now self.old }
        ensures reply { reply.new ≡ text (48 + user)
            (commanded (named_images images.now) (user_machine user self.old) (parse_spec line.now)).lines }
    {
        match parse(line) {
            Ok(cmd) => {
                // The user's number is 1 or more: `number` says so.
                user.number();
                let index = user.index();
                let mut parts = Parts {
                    context: &mut self.contexts[index],
                    unit: &mut self.unit,
                    pool: &mut self.pool,
                    user,
                };
                execute(images, &mut parts, &mut self.traces[index], &cmd, reply);
            }
            Err(refusal) => refuse(reply, user, refusal),
        }
    }
    /// Grant a slice of `quantum` ticks to a user, if the user's program is running, and append the
    /// stop line to the reply if the program stopped. Return whether the program was running.
    #[tactic(auto, using(crate::proofs::PartLaws::part_put_back))]
    pub(crate) fn grant(&mut self, user: User, quantum: usize, reply: &mut Reply) -> bool
        requires { length reply.old + stop_lines_bound self.old.parts ≤ 4096 }
        ensures world { self.new ≡ after_slice quantum user self.old }
        ensures reply { reply.new ≡ reply.old ++ text (48 + user) (sliced quantum (user_machine user self.old)).lines }
        ensures ran { result ≡ runs (user_machine user self.old) }
        ensures bound { length reply.new + stop_lines_bound self.new.parts
            ≤ length reply.old + stop_lines_bound self.old.parts }
        ensures next { user_machine user self.new ≡ (sliced quantum (user_machine user self.old)).next }
        ensures configured { IsConfigured (user_machine user self.old) }
    {
        // The user's number is 1 or more: `number` says so.
        user.number();
        let index = user.index();
        let mut parts = Parts {
            context: &mut self.contexts[index],
            unit: &mut self.unit,
            pool: &mut self.pool,
            user,
        };
        run_slice(&mut parts, &mut self.traces[index], quantum, reply)
    }

    /// Give the turn to the first user with a running program, in the order of turns after the user
    /// who had the last one. Return this user, or `None` if no program is running.
    pub(crate) fn take_turn(&mut self) -> Option<User>
        ensures user { result ≡ next_running self.old }
        ensures none { IfNone result (self.new ≡ self.old) }
        ensures turn { IfSome result (λ user. self.new ≡ record self.old { cursor = user }) }
    {
        let user = next(self.cursor, &self.running())?;
        self.cursor = user;
        Some(user)
    }

    /// Return whether each user's program is running, user 1 first.
    #[tactic(auto, using(crate::proofs::GrantLaws::runs_of_parts))]
    fn running(&self) -> [bool; USER_COUNT]
        ensures { result ≡ map runs self.now.parts }
    {
        running_of(&self.contexts)
    }

    /// Return the state of each user's program, user 1 first.
    #[tactic(auto, using(crate::proofs::GrantLaws::run_states_of_parts))]
    pub(crate) fn run_states(&self) -> [RunState; USER_COUNT]
        ensures { result ≡ map run_state self.now.parts }
    {
        run_states_of(&self.contexts)
    }

    /// Return the counts and the owner of the vector unit.
    pub(crate) fn stats(&self) -> Stats
        ensures { result ≡ stats_of self.now.unit }
    {
        self.unit.stats()
    }
}
