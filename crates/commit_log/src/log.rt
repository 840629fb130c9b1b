//! Log of a run.
ghost use Rattle.std.specs.Prelude.{ℕ, ◌≡◌, ◌+◌, ◌<◌, ◌≤◌, ◌∷◌, ◌&&◌, [], Some, true, length, OnErr, OnOk};
ghost use Rattle.recording.specs.Machines.{state_of};
ghost use Rattle.recording.specs.Runs.{is_counted, word_of};
ghost use Rattle.rv_model.specs.declared.memory.Access.TheVariants.{Fetch};
ghost use Rattle.rv_model.specs.instructions.Table.{scan, table};
ghost use Rattle.rv_model.specs.memory.Memory.{can_access};
ghost use Rattle.rv_model.specs.step.Hart.{HartState, ends_after};
ghost use Rattle.rv_model.specs.step.Step.{step};
ghost use Rattle.rv_model.specs.declared.instructions.instruction.Instr.{Instr};
ghost use Rattle.commit_log.specs.Finds.{Finds, Retires};
ghost use Rattle.commit_log.specs.LineTexts.{line_text};
ghost use Rattle.commit_log.specs.Lines.{instruction_line};
ghost use Rattle.commit_log.specs.Logged.{Gathered, IsLogged, IsNoted, is_within};
ghost use Rattle.commit_log.specs.declared.log.Log.{Log};

use crate::lines::push_line;
use crate::pre_state::PreState;
use crate::text::{LINE_SIZE, TEXT_SIZE, Text};
use devices::{Sink, write_all};
use recording::{RecordFault, Recorder, SingleUserMachine, is_counted, word_at};
use rv_decode::decode;
use rv_model::StepEnd;
use vector_memory::UserBytes;

/// Range of the numbers of instructions that have a line, both ends included. The first instruction has number 1.
#[derive(Clone, Copy, Debug)]
pub struct Window {
    pub from: u64,
    pub to: u64,
}

impl Window {
    /// Return whether a number is in the window.
    #[inline(always)]
    fn contains(self, number: u64) -> bool
        ensures { result ≡ is_within self number }
    {
        self.from <= number && number <= self.to
    }
}

/// Recorder that writes a line for each instruction of a window that completed. The lines are buffered, and written when the buffer may be
/// too full for another line.
#[derive(Drop)]
pub struct Log<K> {
    pub sink: K,
    pub window: Window,
    pub number: u64,
    pub text: Text,
    found: PreState,
}

impl<K: Sink + Drop> Log<K> {
    /// Create a log before the first instruction, which buffers its lines in a text, and writes them to a sink. A run allocates no memory.
    pub fn new(sink: K, text: Text, window: Window) -> Self
        ensures sink { result.sink ≡ sink }
        ensures window { result.window ≡ window }
        ensures number { result.number ≡ 0 }
        ensures text { result.text ≡ text }
    {
        Log {
            sink,
            window,
            number: 0,
            text,
            found: PreState::new(),
        }
    }
}

/// Write the buffered lines, and empty the buffer. Return `Write` if the sink fails.
fn write_gathered<K: Sink>(sink: &mut K, text: &mut Text) -> Result<(), RecordFault>
    ensures printed { OnOk result (K.took sink.old text.old sink.new) }
    ensures none { OnOk result (text.new ≡ []) }
    ensures failed { OnErr result (0 < K.failures sink.new) }
{
    let Ok(()) = write_all(sink, text.as_slice()) else {
        return Err(RecordFault::Write("log"));
    };
    text.clear();
    Ok(())
}

impl<K: Sink> Log<K> {
    /// Write the lines that are still buffered, after the last instruction. Return `Write` if the sink fails.
    pub fn finish(&mut self) -> Result<(), RecordFault>
        ensures printed { OnOk result (K.took self.old.sink self.old.text self.new.sink) }
        ensures failed { OnErr result (0 < K.failures self.new.sink) }
    {
        write_gathered(&mut self.sink, &mut self.text)
    }
}

/// Return whether the buffer has room for another line.
#[inline(always)]
fn has_room(text: &Text) -> bool
    ensures { result ≡ true → length text.now + LINE_SIZE ≤ TEXT_SIZE }
{
    text.as_slice().len() <= TEXT_SIZE - LINE_SIZE
}

/// Write the buffered lines, unless the buffer has room for another line.
#[inline(always)]
fn make_room<K: Sink>(sink: &mut K, text: &mut Text) -> Result<(), RecordFault>
    ensures printed { OnOk result (Gathered K.took sink.old text.old [] sink.new text.new) }
    ensures room { OnOk result (length text.new + LINE_SIZE ≤ TEXT_SIZE) }
    ensures failed { OnErr result (0 < K.failures sink.new) }
{
    if has_room(text) {
        return Ok(());
    }
    write_gathered(sink, text)?;
    Ok(())
}

/// Append the line of an instruction, from the state before it and the machine after it. Make room in the buffer first.
#[inline(always)]
fn add_line<M: UserBytes, K: Sink>(
    sink: &mut K,
    text: &mut Text,
    found: &PreState,
    machine: &SingleUserMachine<M>,
) -> Result<(), RecordFault>
    ensures printed { OnOk result ((instr : Instr) (word : ℕ) (s : HartState)
        → Finds word (Some instr) s.scalar s.vector found.now
        → Retires instr s.vector machine.now.vectors.seat.state.conf.vl → Gathered K.took sink.old text.old
        (line_text (instruction_line instr word s machine.now.scalar machine.now.vectors.seat.state)) sink.new text.new) }
    ensures failed { OnErr result (0 < K.failures sink.new) }
{
    make_room(sink, text)?;
    push_line(text, found, &machine.scalar, &machine.vectors.seat.state);
    Ok(())
}

/// Save the state before an instruction.
#[inline(always)]
fn capture_pre_state<M: UserBytes>(found: &mut PreState, machine: &SingleUserMachine<M>)
    ensures { can_access Fetch (M.memory machine.now.memory) machine.now.scalar.pc 4 ≡ true
        → Finds (word_of (state_of M.memory machine.now)) (scan table (word_of (state_of M.memory machine.now)))
        machine.now.scalar machine.now.vectors.seat.state found.new }
{
    let word = word_at(&machine.memory, machine.scalar.pc);
    found.capture(
        word,
        &decode(word),
        &machine.scalar,
        &machine.vectors.seat.state,
    );
}

/// Save the state before an instruction, if its number is in the window.
#[inline(always)]
fn capture_instruction<M: UserBytes, K: Sink>(log: &mut Log<K>, machine: &SingleUserMachine<M>)
    ensures { IsNoted log.old (state_of M.memory machine.now) log.new }
{
    log.number = log.number.wrapping_add(1);
    if !log.window.contains(log.number) {
        return;
    }
    capture_pre_state(&mut log.found, machine);
}

/// Return whether an instruction with this end and number has a line: it completed, and is in the window.
#[inline(always)]
fn has_line(end: StepEnd, window: Window, number: u64) -> bool
    ensures { result ≡ (is_counted end && is_within window number) }
{
    is_counted(end) && window.contains(number)
}

/// Append the line of the instruction whose state was saved, if it completed and its number is in the window.
#[inline(always)]
fn log_instruction<M: UserBytes, K: Sink>(
    log: &mut Log<K>,
    machine: &SingleUserMachine<M>,
    end: StepEnd,
) -> Result<(), RecordFault>
    ensures logged { OnOk result ((before : Log K) (found : HartState) (ticks : ℕ) → IsNoted before found log.old
        → step 256 found ≡ ends_after ticks end (state_of M.memory machine.now)
        → IsLogged K.took before (found ∷ []) log.new) }
    ensures failed { OnErr result (0 < K.failures log.new.sink) }
{
    if !has_line(end, log.window, log.number) {
        return Ok(());
    }
    add_line(&mut log.sink, &mut log.text, &log.found, machine)
}

impl<M: UserBytes, K: Sink> Recorder<M> for Log<K> {
    ghost use Rattle.commit_log.specs.Logged.{IsLogged, IsNoted};
    ghost use Rattle.commit_log.specs.LogLaws.{none_logged, more_logged};

    ghost recorded = { IsLogged K.took };

    ghost prepared = { IsNoted };

    ghost failed = { λ log _. 0 < K.failures log.sink };

    #[inline(always)]
    fn before_step(&mut self, machine: &SingleUserMachine<M>) -> Result<(), RecordFault> {
        capture_instruction(self, machine);
        Ok(())
    }

    #[inline(always)]
    fn after_step(
        &mut self,
        machine: &SingleUserMachine<M>,
        end: StepEnd,
        _ticks: usize,
    ) -> Result<(), RecordFault> {
        log_instruction(self, machine, end)
    }

    ghost recorded_none = { none_logged K.took K.took_none };

    ghost recorded_more = { more_logged K.took K.took_more };
}
