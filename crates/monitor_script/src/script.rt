//! Execution of a whole script.
ghost use Rattle.std.specs.Prelude.{◌≡◌, ◌≢◌, ℕ, ◌+◌, ◌<◌, ◌≤◌, List, Err, length, take, OnOk, IfOk};
ghost use Rattle.monitor_machine.specs.MachineState.{after_line, line_output};
ghost use Rattle.rv_model.specs.machine.World.{solo, solo_from};
ghost use Rattle.rv_model.specs.machine.Script.{
  after_all,
  printed_by_lines,
  whole_from,
  after_script,
  lines,
  own,
  own_from,
  new_world,
  user_machine,
};
ghost use Rattle.rv_model.specs.machine.Setup.{user_count};
ghost use Rattle.devices.specs.Device.{Rose};
ghost use Rattle.monitor_script.specs.EndedLines.{ended_lines};
ghost use Rattle.monitor_script.specs.FailedWrites.{CutShort};
ghost use Rattle.monitor_script.specs.Feed.{fed, Cut};

use crate::feed::{serve, take_bytes};
use crate::line::Line;
use devices::{Sink, Source};
use monitor_cmds::Reply;
use monitor_machine::Machine;
use std::alloc::Allocator;
use thiserror::Error;

/// The reason why a run stopped before the script's end.
#[derive(Debug, Drop, Error)]
pub enum RunFault {
    /// A read from the source failed.
    #[error("cannot read script")]
    Read,
    /// The source has more than 16,777,216 bytes.
    #[error("script too long")]
    TooLong,
    /// A write to the sink failed.
    #[error("cannot write output")]
    Write,
}

/// The maximum size of a script in bytes.
pub const MAX_SCRIPT: usize = 16_777_216;

/// Process the next piece of a script, in which `left` more bytes are allowed, and return how many are allowed after it.
/// If the piece is longer, process its first `left` bytes only, and return `TooLong`.
fn take_piece<A: Allocator, K: Sink>(
    machine: &mut Machine<'_, A>,
    line: &mut Line,
    piece: &[u8],
    left: usize,
    reply: &mut Reply,
    sink: &mut K,
) -> Result<usize, RunFault>
    ensures left { IfOk result (λ n. n + length piece.now ≡ left) }
    ensures machine { OnOk result (machine.new ≡ (fed machine.old line.old piece.now).machine) }
    ensures setup { machine.new.setup ≡ machine.old.setup }
    ensures line { OnOk result (line.new ≡ (fed machine.old line.old piece.now).line) }
    ensures ok { OnOk result (
        K.took sink.old (fed machine.old line.old piece.now).output sink.new) }
    ensures unfailed { OnOk result (K.failures sink.new ≡ K.failures sink.old) }
    ensures long { result ≡ Err RunFault.TooLong → left < length piece.now }
    ensures machine_long { result ≡ Err RunFault.TooLong →
        machine.new ≡ (fed machine.old line.old (take left piece.now)).machine }
    ensures output_long { result ≡ Err RunFault.TooLong →
        K.took sink.old (fed machine.old line.old (take left piece.now)).output sink.new }
    ensures cut { result ≡ Err RunFault.Write → Cut machine.old line.old (take left piece.now)
        (λ xs. K.took sink.old xs sink.new) machine.new }
    ensures cause { result ≡ Err RunFault.Write → Rose (K.failures sink.old) (K.failures sink.new) }
    ensures never_read { result ≢ Err RunFault.Read }
{
    let taken = piece.len().min(left);
    let Ok(()) = take_bytes(machine, line, &piece[..taken], reply, sink) else {
        return Err(RunFault::Write);
    };
    if taken < piece.len() {
        return Err(RunFault::TooLong);
    }
    Ok(left - taken)
}

/// Execute the last line, which ends with the script, and write its reply.
fn end_script<A: Allocator, K: Sink>(
    machine: &mut Machine<'_, A>,
    line: &Line,
    reply: &mut Reply,
    sink: &mut K,
) -> Result<(), RunFault>
    ensures machine { machine.new ≡ after_line machine.old line.now }
    ensures setup { machine.new.setup ≡ machine.old.setup }
    ensures eight { length machine.new.world.parts ≡ user_count }
    ensures ok { OnOk result (K.took sink.old (line_output machine.old line.now) sink.new) }
    ensures unfailed { OnOk result (K.failures sink.new ≡ K.failures sink.old) }
    ensures part { result ≡ Err RunFault.Write → (n : ℕ) × (
        (n < length (line_output machine.old line.now))
        × K.took sink.old (take n (line_output machine.old line.now)) sink.new) }
    ensures cause { result ≡ Err RunFault.Write → Rose (K.failures sink.old) (K.failures sink.new) }
    ensures never_read { result ≢ Err RunFault.Read }
    ensures never_too_long { result ≢ Err RunFault.TooLong }
{
    let Ok(()) = serve(machine, line.as_slice(), reply, sink) else {
        return Err(RunFault::Write);
    };
    Ok(())
}

/// Read a script from `source` to its end and execute it. Each line's reply is written to `sink` before the next read.
/// The machine can be used again, even after a fault.
pub fn run<A: Allocator, S: Source, K: Sink>(
    machine: &mut Machine<'_, A>,
    source: &mut S,
    sink: &mut K,
) -> Result<(), RunFault>
    // The script is all bytes of the source up to its end, and the sink accepted the script's output. Each user's lines
    // are the output of a single-user machine that processes only that user's events. It is new if the machine is new;
    // otherwise it starts from the user's state in the machine.
    ensures headline { OnOk result ((script : List ℕ) × ((output : List ℕ) × (
        S.gave source.old script source.new × S.ended source.new × K.took sink.old output sink.new
        × (machine.old.world ≡ new_world → (u : ℕ) → 1 ≤ u → u ≤ user_count →
        lines u output ≡ solo machine.old.setup (own machine.old.setup u script))
        × ((u : ℕ) → 1 ≤ u → u ≤ user_count →
        lines u output ≡ solo_from machine.old.setup (user_machine u machine.old.world)
        (own_from machine.old.setup u machine.old.world script))
        × (output ≡ whole_from machine.old.setup machine.old.world script)
        × (machine.new.world ≡ after_script machine.old.setup machine.old.world script)
        × (length script ≤ 16777216)))) }
    ensures setup { machine.new.setup ≡ machine.old.setup }
    ensures unfailed_source { OnOk result (S.failures source.new ≡ S.failures source.old) }
    ensures unfailed_sink { OnOk result (K.failures sink.new ≡ K.failures sink.old) }
    ensures read { result ≡ Err RunFault.Read →
        Rose (S.failures source.old) (S.failures source.new) }
    // After a failed read, exactly the lines whose newline was read have been executed, and their replies written.
    ensures after_read { result ≡ Err RunFault.Read → (text : List ℕ) × (
        S.gave source.old text source.new × (length text ≤ 16777216)
        × (machine.new.world ≡ after_all machine.old.setup machine.old.world (ended_lines text))
        × K.took sink.old (printed_by_lines machine.old.setup machine.old.world (ended_lines text)) sink.new) }
    // If the script is too long, exactly the lines that end in its first 16,777,216 bytes have been executed, and their
    // replies written. At most 512 more bytes have been read.
    ensures after_too_long { result ≡ Err RunFault.TooLong → (text : List ℕ) × (
        S.gave source.old text source.new × ¬ (S.ended source.new)
        × (16777216 < length text) × (length text ≤ 16777728)
        × (machine.new.world ≡ after_all machine.old.setup machine.old.world
        (ended_lines (take 16777216 text)))
        × K.took sink.old (printed_by_lines machine.old.setup machine.old.world
        (ended_lines (take 16777216 text))) sink.new) }
    ensures write { result ≡ Err RunFault.Write → Rose (K.failures sink.old) (K.failures sink.new) }
    // After a failed write, the output ends within the reply to one line.
    ensures after_write { result ≡ Err RunFault.Write → (text : List ℕ) × (
        S.gave source.old text source.new
        × CutShort machine.old text (S.ended source.new) machine.new.world
        (λ output. K.took sink.old output sink.new)) }
{
    let mut left = MAX_SCRIPT;
    let mut line = Line::new();
    let mut reply = Reply::new();
    let mut chunk = [0; 512];
    loop {
        let Ok(count) = source.read(&mut chunk) else {
            return Err(RunFault::Read);
        };
        if count == 0 {
            return end_script(machine, &line, &mut reply, sink);
        }
        left = take_piece(machine, &mut line, &chunk[..count], left, &mut reply, sink)?;
    }
}
