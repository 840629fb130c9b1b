//! Numbers of the counted instructions of a run and of their ticks.
ghost use Rattle.std.specs.Prelude.{◌≡◌};

use crate::counting::is_counted;
use crate::fault::RecordFault;
use crate::machine::SingleUserMachine;
use crate::recorder::Recorder;
use rv_model::StepEnd;
use vector_memory::UserBytes;

/// Numbers of counted instructions and of their ticks, modulo 2^64.
#[derive(Drop)]
pub struct Retired {
    pub times: u64,
    pub ticks: u64,
}

impl Retired {
    /// Return zero counts.
    pub fn none() -> Retired
        ensures times { result.times ≡ 0 }
        ensures ticks { result.ticks ≡ 0 }
    {
        Retired { times: 0, ticks: 0 }
    }
}

impl<M: UserBytes> Recorder<M> for Retired {
    ghost use Rattle.recording.specs.Totals.{AddsUp, times_of, counted_ticks};
    ghost use Rattle.recording.specs.TotalLaws.{none_added, more_added};

    ghost recorded = { λ a states b. AddsUp times_of a.times states b.times × AddsUp counted_ticks a.ticks states b.ticks };

    ghost prepared = { λ a _ b. b ≡ a };

    ghost failed = { λ _ _. ⊥ };

    #[inline(always)]
    fn before_step(&mut self, _machine: &SingleUserMachine<M>) -> Result<(), RecordFault> {
        Ok(())
    }

    #[inline(always)]
    fn after_step(
        &mut self,
        _machine: &SingleUserMachine<M>,
        end: StepEnd,
        ticks: usize,
    ) -> Result<(), RecordFault> {
        if is_counted(end) {
            self.times = self.times.wrapping_add(1);
            self.ticks = self.ticks.wrapping_add(ticks as u64);
        }
        Ok(())
    }

    ghost recorded_none = { λ r. (none_added times_of r.times, none_added counted_ticks r.ticks) };

    ghost recorded_more = { λ a b c xs ys one two. (
      more_added times_of xs ys a.times b.times c.times one.0 two.0,
      more_added counted_ticks xs ys a.ticks b.ticks c.ticks one.1 two.1,
    ) };
}
