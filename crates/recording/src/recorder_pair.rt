//! Two records of one run.
ghost use Rattle.std.specs.Prelude.{◌⊎◌};

use crate::fault::RecordFault;
use crate::machine::SingleUserMachine;
use crate::recorder::Recorder;
use rv_model::StepEnd;
use vector_memory::UserBytes;

/// A pair of recorders for one run. At each instruction the first records before the second; an error of the first
/// skips the second.
#[derive(Drop)]
pub struct RecorderPair<A, B> {
    pub first: A,
    pub second: B,
}

impl<M: UserBytes, A: Recorder<M>, B: Recorder<M>> Recorder<M> for RecorderPair<A, B> {
    ghost recorded = { λ a states b. A.recorded a.first states b.first × B.recorded a.second states b.second };

    ghost prepared = { λ a state b. A.prepared a.first state b.first × B.prepared a.second state b.second };

    ghost failed = { λ r fault. A.failed r.first fault ⊎ B.failed r.second fault };

    #[inline(always)]
    fn before_step(&mut self, machine: &SingleUserMachine<M>) -> Result<(), RecordFault> {
        self.first.before_step(machine)?;
        self.second.before_step(machine)
    }

    #[inline(always)]
    fn after_step(
        &mut self,
        machine: &SingleUserMachine<M>,
        end: StepEnd,
        ticks: usize,
    ) -> Result<(), RecordFault> {
        self.first.after_step(machine, end, ticks)?;
        self.second.after_step(machine, end, ticks)
    }

    ghost recorded_none = { λ r. (A.recorded_none r.first, B.recorded_none r.second) };

    ghost recorded_more = { λ a b c xs ys one two.
        (A.recorded_more a.first b.first c.first xs ys one.0 two.0, B.recorded_more a.second b.second c.second xs ys one.1 two.1) };
}
