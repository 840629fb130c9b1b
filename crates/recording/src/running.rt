//! A run, recorded or not.
ghost use Rattle.std.specs.Prelude.{◌≡◌, ◌⊎◌, ◌∷◌, [], flat_map, suc, ℕ, is_none, IfErr, IfOk, OnErr, OnOk};
ghost use Rattle.devices.specs.Device.{Rose};
ghost use Rattle.rv_model.specs.machine.UserMachine.{stop_of};
ghost use Rattle.recording.specs.Machines.{Advances, state_of, taken};
ghost use Rattle.recording.specs.Runs.{TakesFirst, output_of, ran_by};

use crate::chooser::Chooser;
use crate::fault::RecordFault;
use crate::machine::SingleUserMachine;
use crate::recorder::Recorder;
use devices::{Sink, write_all};
use rv_model::StepEnd;
use vector_memory::UserBytes;

/// Return whether the program continues after an instruction with this end.
#[inline(always)]
fn goes_on(end: StepEnd) -> bool
    ensures { result ≡ is_none (stop_of end) }
{
    matches!(end, StepEnd::Ran | StepEnd::Cut)
}

/// Write the bytes of the output buffer to the sink, and empty the buffer.
#[inline(always)]
fn take_output<M: UserBytes, K: Sink>(
    machine: &mut SingleUserMachine<M>,
    sink: &mut K,
) -> Result<(), RecordFault>
    ensures output { OnOk result (K.took sink.old machine.old.output.items sink.new) }
    ensures part { OnErr result (TakesFirst K.took sink.old machine.old.output.items sink.new) }
    ensures unfailed { OnOk result (K.failures sink.new ≡ K.failures sink.old) }
    ensures failed { OnErr result (Rose (K.failures sink.old) (K.failures sink.new)) }
    ensures state { OnOk result (state_of M.memory machine.new ≡ taken (state_of M.memory machine.old)) }
    ensures memory { machine.new.memory ≡ machine.old.memory }
{
    let Ok(()) = write_all(sink, machine.output.as_slice()) else {
        return Err(RecordFault::Write("output"));
    };
    machine.output.clear();
    Ok(())
}

/// Execute one instruction, record it, make its choices, and write its output to the sink. Return its end and its ticks.
#[inline(always)]
fn advance<M: UserBytes, R: Recorder<M>, C: Chooser<M>, K: Sink>(
    recorder: &mut R,
    chooser: &mut C,
    machine: &mut SingleUserMachine<M>,
    sink: &mut K,
) -> Result<(StepEnd, usize), RecordFault>
    ensures machine { IfOk result
        (λ end. Advances (C.next chooser.old 0 (state_of M.memory machine.old)) (state_of M.memory machine.old)
        (state_of M.memory machine.new) end.0 end.1) }
    ensures next { OnOk result (C.next chooser.new ≡ (λ (k : ℕ). C.next chooser.old (suc k))) }
    ensures recorded { OnOk result (R.recorded recorder.old (state_of M.memory machine.old ∷ []) recorder.new) }
    ensures output { OnOk result (K.took sink.old (output_of (state_of M.memory machine.old)) sink.new) }
    ensures part { OnErr result (TakesFirst K.took sink.old (output_of (state_of M.memory machine.old)) sink.new) }
    ensures unfailed { OnOk result (K.failures sink.new ≡ K.failures sink.old) }
    ensures failed { IfErr result (λ fault. Rose (K.failures sink.old) (K.failures sink.new) ⊎ R.failed recorder.new fault) }
    ensures memory { machine.new.memory ≡ M.with_memory machine.old.memory (M.memory machine.new.memory) }
{
    recorder.before_step(machine)?;
    chooser.before_step(machine);
    let (end, ticks) = machine.step();
    recorder.after_step(machine, end, ticks)?;
    chooser.choose(machine, end);
    take_output(machine, sink)?;
    Ok((end, ticks))
}

/// Execute instructions for a number of ticks, record each, make its choices, and write the output of each to the sink.
/// Each is recorded before its choices. The last one may take more ticks than are left. Return the end of the instruction
/// that stops the program, or `None` if the ticks run out first. If the recorder or the sink fails, the run can't
/// continue.
#[inline(always)]
pub fn run<M: UserBytes, R: Recorder<M>, C: Chooser<M>, K: Sink>(
    recorder: &mut R,
    chooser: &mut C,
    machine: &mut SingleUserMachine<M>,
    sink: &mut K,
    ticks: u64,
) -> Result<Option<StepEnd>, RecordFault>
    ensures recorded { OnOk result
        (R.recorded recorder.old (ran_by (C.next chooser.old) ticks (state_of M.memory machine.old)).found recorder.new) }
    ensures end { IfOk result (λ end. end ≡ (ran_by (C.next chooser.old) ticks (state_of M.memory machine.old)).end) }
    ensures machine { OnOk result (state_of M.memory machine.new ≡ (ran_by (C.next chooser.old) ticks (state_of M.memory machine.old)).state) }
    ensures output { OnOk result (K.took sink.old
        (flat_map output_of (ran_by (C.next chooser.old) ticks (state_of M.memory machine.old)).found) sink.new) }

    // After an error, the sink has the first bytes of the whole run's output.
    ensures part { OnErr result (TakesFirst K.took sink.old
        (flat_map output_of (ran_by (C.next chooser.old) ticks (state_of M.memory machine.old)).found) sink.new) }

    // It is an error only if the sink or the recorder failed.
    ensures failed { IfErr result (λ fault. Rose (K.failures sink.old) (K.failures sink.new) ⊎ R.failed recorder.new fault) }

    // All other contents of the user's bytes are unchanged.
    ensures memory { machine.new.memory ≡ M.with_memory machine.old.memory (M.memory machine.new.memory) }
{
    let mut left = ticks;
    for _ in 0..ticks {
        if left == 0 {
            return Ok(None);
        }
        let (end, spent) = advance(recorder, chooser, machine, sink)?;
        if !goes_on(end) {
            return Ok(Some(end));
        }
        left = left.saturating_sub(spent as u64);
    }
    Ok(None)
}
