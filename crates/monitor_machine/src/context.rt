//! A user's state without memory and vector state.
use crate::address_set::AddressSet;
use arrayvec::ArrayVec;
use rv_model::{OUTPUT_SIZE, Policy, Reg, RunState, Scalar};

/// Number of the register that holds the stack pointer.
const STACK_POINTER: u32 = 2;

/// Initial stack pointer of a loaded program.
const STACK_TOP: u64 = 0x7fff_efc0;

/// A user's state without memory, vector state and trace: registers, the policy for agnostic
/// elements, output buffer and breakpoints, whether the program is running, and whether it skips
/// the breakpoint at the program counter once.
#[derive(Drop)]
pub(crate) struct Context {
    pub(crate) scalar: Scalar,
    pub(crate) entered: bool,
    pub(crate) policy: Policy,
    pub(crate) output: ArrayVec<u8, OUTPUT_SIZE>,
    pub(crate) breakpoints: AddressSet,
    pub(crate) running: bool,
    pub(crate) fresh: bool,
}

impl Context {
    ghost use Rattle.std.specs.Prelude.{◌≡◌, ◌==◌, ◌&&◌, length, nat_le, not, true, false};
    ghost use Rattle.std.specs.List.{list_any};
    ghost use Rattle.monitor_machine.specs.Parts.{new_context, loaded_context, is_running, context_run_state};

    /// Create the context of an absent user.
    pub(crate) fn new() -> Context
        ensures { result ≡ new_context }
    {
        Context {
            scalar: Scalar::new(),
            entered: false,
            policy: Policy::Keep,
            output: ArrayVec::new(),
            breakpoints: AddressSet::new(),
            running: false,
            fresh: false,
        }
    }

    /// Create the context of a user who has just entered.
    pub(crate) fn entered() -> Context
        ensures { result ≡ record new_context { entered = true } }
    {
        Context {
            entered: true,
            ..Context::new()
        }
    }

    /// Create the context of a user who has loaded an image: the program counter is the image's
    /// entry address, and x2 is the stack pointer.
    #[tactic(auto, unfolding(rv_model::specs::scalar::Registers::initial_scalar))]
    pub(crate) fn loaded(entry: u64) -> Context
        ensures { result ≡ loaded_context entry }
    {
        let mut context = Context::entered();
        context.scalar.pc = entry;
        context.scalar.write(Reg::new(STACK_POINTER), STACK_TOP);
        context
    }

    /// Return whether there is a breakpoint.
    #[inline(always)]
    pub(crate) fn is_watched(&self) -> bool
        ensures { result ≡ false → nat_le (length self.now.breakpoints) 0 ≡ true }
    {
        !self.breakpoints.is_empty()
    }

    /// Return whether a breakpoint at the program counter stops the program, unless it is exempt.
    /// `watched` may be false if there are no breakpoints.
    #[tactic(auto, using(crate::proofs::AddressLaws::none_holds))]
    #[inline(always)]
    pub(crate) fn should_break(&self, watched: bool, skip_once: bool) -> bool
        requires { watched ≡ false → nat_le (length self.now.breakpoints) 0 ≡ true }
        ensures { result ≡ (not skip_once && list_any (λ a. a == self.now.scalar.pc) self.now.breakpoints) }
    {
        if !watched {
            return false;
        }
        !skip_once && self.breakpoints.contains(self.scalar.pc)
    }
    /// Return whether the user has entered and the program is running.
    pub(crate) fn is_running(&self) -> bool
        ensures { result ≡ is_running self.now }
    {
        self.entered && self.running
    }

    /// Return the state of the user's program.
    pub(crate) fn run_state(&self) -> RunState
        ensures { result ≡ context_run_state self.now }
    {
        if !self.entered {
            RunState::Absent
        } else if self.running {
            RunState::Running
        } else {
            RunState::Stopped
        }
    }
}
