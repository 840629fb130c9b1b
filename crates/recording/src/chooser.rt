//! Choices that are made after each instruction of a run.
ghost use Rattle.std.specs.Prelude.{◌≡◌, suc, ℕ};
ghost use Rattle.rv_model.specs.step.Hart.{HartState, ends_after};
ghost use Rattle.rv_model.specs.step.Step.{step};
ghost use Rattle.recording.specs.Machines.{state_of};

use crate::machine::SingleUserMachine;
use rv_model::StepEnd;
use vector_memory::UserBytes;

/// What is chosen where the standard leaves a choice, after each instruction of a run.
pub trait Chooser<M: UserBytes> {
    // The state that the k-th instruction from now on, from 0, leaves of a state.
    ghost next: { Self → ℕ → HartState → HartState };

    // What the choices depend on was saved between them, in a state before an instruction.
    ghost prepared: { Self → HartState → Self → Type 0 };

    /// Save what the choices of the next instruction depend on.
    fn before_step(&mut self, machine: &SingleUserMachine<M>)
        ensures prepared { prepared self.old (state_of M.memory machine.now) self.new };

    /// Make the choices of the instruction since then, in the state after it. Neither the memory nor the output changes.
    fn choose(&mut self, machine: &mut SingleUserMachine<M>, end: StepEnd)
        ensures state { (before : Self) (found : HartState) (ticks : ℕ) → prepared before found self.old
            → step 256 found ≡ ends_after ticks end (state_of M.memory machine.old)
            → state_of M.memory machine.new ≡ next before 0 found }
        ensures next { (before : Self) (found : HartState) → prepared before found self.old
            → next self.new ≡ (λ (k : ℕ). next before (suc k)) }
        ensures memory { machine.new.memory ≡ machine.old.memory }
        ensures output { machine.new.output ≡ machine.old.output };
}

/// No choices: each instruction leaves the state of its step.
#[derive(Drop)]
pub struct NoChoices {}

impl<M: UserBytes> Chooser<M> for NoChoices {
    ghost use Rattle.recording.specs.Runs.{stepped};
    ghost use Rattle.std.specs.Prelude.{⊤};

    ghost next = { λ c. stepped };

    ghost prepared = { λ old found new. ⊤ };

    #[inline(always)]
    fn before_step(&mut self, machine: &SingleUserMachine<M>) {}

    #[inline(always)]
    fn choose(&mut self, machine: &mut SingleUserMachine<M>, end: StepEnd) {}
}
