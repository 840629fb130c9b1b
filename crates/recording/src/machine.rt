//! A machine of a single user, who owns its vector unit alone.
ghost use Rattle.std.specs.Prelude.{◌≡◌};

use arrayvec::ArrayVec;
use hart::{MAX_TICKS, SingleSlot, View, step};
use rv_model::{OUTPUT_SIZE, Policy, Scalar, StepEnd};
use vector_memory::UserBytes;

/// The registers, memory, vector state and output buffer of a single user, and the policy for agnostic elements.
#[derive(Drop)]
pub struct SingleUserMachine<M> {
    pub scalar: Scalar,
    pub memory: M,
    pub vectors: SingleSlot,
    pub output: ArrayVec<u8, OUTPUT_SIZE>,
    pub policy: Policy,
}

impl<M: UserBytes> SingleUserMachine<M> {
    ghost use Rattle.recording.specs.Machines.{LeadsTo};

    /// Execute one instruction. Return its end and its ticks, 1 to 256.
    #[inline(always)]
    pub fn step(&mut self) -> (StepEnd, usize)
        ensures model { LeadsTo M.memory self.old self.new result.0 result.1 }
        ensures memory { self.new.memory ≡ M.with_memory self.old.memory (M.memory self.new.memory) }
        ensures policy { self.new.policy ≡ self.old.policy }
    {
        let policy = self.policy;
        let mut view = View {
            scalar: &mut self.scalar,
            memory: &mut self.memory,
            vectors: &mut self.vectors,
            output: &mut self.output,
            policy,
        };
        step(&mut view, MAX_TICKS)
    }
}
