//! Recorder of the choices of a run.
ghost use Rattle.std.specs.Prelude.{◌≡◌, ◌<◌, ◌∷◌, [], ℕ, OnErr, OnOk};
ghost use Rattle.recording.specs.Machines.{state_of};
ghost use Rattle.rv_model.specs.step.Hart.{HartState, ends_after};
ghost use Rattle.rv_model.specs.step.Step.{step};
ghost use Rattle.choice_log.specs.Listed.{IsListed, IsReady};
ghost use Rattle.choice_log.specs.declared.choice_log.ChoiceLog.{ChoiceLog};

use crate::lines::write_lines;
use devices::Sink;
use open_choices::Seed;
use recording::{Open, RecordFault, Recorder, SingleUserMachine, has_run, open_at};
use rv_model::StepEnd;
use vector_memory::UserBytes;

/// Recorder that writes a line for each kind of choice that a seed makes after an instruction. `number` is the number of
/// the last instruction; the first one has number 1.
#[derive(Drop)]
pub struct ChoiceLog<K> {
    pub sink: K,
    pub seed: Seed,
    pub number: u64,
    left: Open,
}

impl<K: Sink + Drop> ChoiceLog<K> {
    /// Create a recorder before the first instruction, which writes to a sink.
    pub fn new(sink: K, seed: Seed) -> Self
        ensures sink { result.sink ≡ sink }
        ensures seed { result.seed ≡ seed }
        ensures number { result.number ≡ 0 }
    {
        ChoiceLog {
            sink,
            seed,
            number: 0,
            left: Open::Nothing,
        }
    }
}

/// Write the lines of the choices after the instruction whose number was counted, if it retired.
fn list_choices<M: UserBytes, K: Sink>(
    log: &mut ChoiceLog<K>,
    machine: &SingleUserMachine<M>,
    end: StepEnd,
) -> Result<(), RecordFault>
    ensures listed { OnOk result ((before : ChoiceLog K) (found : HartState) (ticks : ℕ) → IsReady before found log.old
        → step 256 found ≡ ends_after ticks end (state_of M.memory machine.now)
        → IsListed K.took before (found ∷ []) log.new) }
    ensures failed { OnErr result (0 < K.failures log.new.sink) }
{
    if !has_run(end) {
        return Ok(());
    }
    write_lines(
        &mut log.sink,
        &log.seed,
        log.number,
        &log.left,
        &machine.vectors.seat.state.conf,
        &machine.scalar,
    )
}

impl<M: UserBytes, K: Sink> Recorder<M> for ChoiceLog<K> {
    ghost use Rattle.choice_log.specs.Listed.{IsListed, IsReady};
    ghost use Rattle.choice_log.specs.ListLaws.{none_listed, more_listed};

    ghost recorded = { IsListed K.took };

    ghost prepared = { IsReady };

    ghost failed = { λ log _. 0 < K.failures log.sink };

    fn before_step(&mut self, machine: &SingleUserMachine<M>) -> Result<(), RecordFault> {
        self.number = self.number.wrapping_add(1);
        self.left = open_at(machine);
        Ok(())
    }

    fn after_step(
        &mut self,
        machine: &SingleUserMachine<M>,
        end: StepEnd,
        _ticks: usize,
    ) -> Result<(), RecordFault> {
        list_choices(self, machine, end)
    }

    ghost recorded_none = { none_listed K.took K.took_none };

    ghost recorded_more = { more_listed K.took K.took_more };
}
