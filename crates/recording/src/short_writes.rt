//! Write calls that write fewer bytes than requested.
ghost use Rattle.std.specs.Prelude.{◌≡◌};
ghost use Rattle.recording.specs.Machines.{state_of};
ghost use Rattle.recording.specs.Totals.{has_written_less};

use crate::fault::RecordFault;
use crate::machine::SingleUserMachine;
use crate::recorder::Recorder;
use rv_model::{Reg, StepEnd};
use vector_memory::UserBytes;

/// The register with the number of bytes that a call requests to write (x12, a2). A call leaves it unchanged.
const LENGTH_REGISTER: u32 = 12;

/// Return whether a call just wrote some bytes, but fewer than requested.
#[inline(always)]
fn has_written_less<M: UserBytes>(machine: &SingleUserMachine<M>) -> bool
    ensures { result ≡ has_written_less (state_of M.memory machine.now) }
{
    !machine.output.is_empty()
        && (machine.output.len() as u64) < machine.scalar.read(Reg::new(LENGTH_REGISTER))
}

/// Number of calls that wrote some bytes, but fewer than requested, modulo 2^64.
#[derive(Drop)]
pub struct ShortWrites {
    pub count: u64,
}

impl ShortWrites {
    /// Return a count of zero.
    pub fn none() -> ShortWrites
        ensures { result.count ≡ 0 }
    {
        ShortWrites { count: 0 }
    }
}

impl<M: UserBytes> Recorder<M> for ShortWrites {
    ghost use Rattle.recording.specs.Totals.{AddsUp, short_of};
    ghost use Rattle.recording.specs.TotalLaws.{none_added, more_added};

    ghost recorded = { λ a states b. AddsUp short_of a.count states b.count };

    ghost prepared = { λ a _ b. b ≡ a };

    ghost failed = { λ _ _. ⊥ };

    #[inline(always)]
    fn before_step(&mut self, _machine: &SingleUserMachine<M>) -> Result<(), RecordFault> {
        Ok(())
    }

    #[inline(always)]
    fn after_step(
        &mut self,
        machine: &SingleUserMachine<M>,
        _end: StepEnd,
        _ticks: usize,
    ) -> Result<(), RecordFault> {
        if has_written_less(machine) {
            self.count = self.count.wrapping_add(1);
        }
        Ok(())
    }

    ghost recorded_none = { λ r. none_added short_of r.count };

    ghost recorded_more = { λ a b c xs ys. more_added short_of xs ys a.count b.count c.count };
}
