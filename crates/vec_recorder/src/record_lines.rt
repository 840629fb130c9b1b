//! The lines of a counts file, and the last line of each record.
ghost use Rattle.std.specs.Prelude.{IsPermutation, ◌≡◌, ◌++◌, ◌+◌, ◌<◌, ◌≤◌, ◌^◌, length, flat_map, true, OnErr, OnOk};
ghost use Rattle.std.specs.Option.{option_and_then};
ghost use Rattle.rv_model.specs.commands.Running.{running_line};
ghost use Rattle.rv_model.specs.machine.UserMachine.{stop_of};
ghost use Rattle.vec_recorder.specs.KeyOrder.{Ascend, IsBefore, place_of};
ghost use Rattle.vec_recorder.specs.RecordLines.{
  end_line,
  has_no_counts,
  jump_line,
  last_line,
  length_line,
  row_line,
  spaced,
  word_line,
};

use devices::{DeviceFault, Sink, write_all};
use line_text::{Reply, push_decimal, push_hex8, push_hex16, push_stop};
use recording::{Key, Row, Sums};
use rv_model::{StepEnd, Stop};

/// Append a space and a decimal number.
#[tactic(auto, unfolding(crate::specs::RecordLines::spaced))]
fn push_number(reply: &mut Reply, number: u64)
    requires { length reply.old + 21 ≤ 4096 }
    ensures text { reply.new ≡ reply.old ++ spaced number }
    ensures bound { length reply.new ≤ length reply.old + 21 }
{
    reply.push(b" ");
    push_decimal(reply, number);
}

/// Append the line of an instruction word at an address, with its counts.
#[tactic(auto, unfolding(crate::specs::RecordLines::word_line))]
fn push_word(reply: &mut Reply, pc: u64, word: u32, sums: &Sums)
    requires { length reply.old + 134 ≤ 4096 }
    ensures { reply.new ≡ reply.old ++ word_line pc word sums.now }
{
    reply.push(b"at ");
    push_hex16(reply, pc);
    reply.push(b" ");
    push_hex8(reply, word);
    push_number(reply, sums.times);
    push_number(reply, sums.ticks);
    push_number(reply, sums.active);
    push_number(reply, sums.masked);
    push_number(reply, sums.tail);
    reply.push(b"\n");
}

/// Append the line of a vector type and a vector length, with its count.
#[tactic(auto, unfolding(crate::specs::RecordLines::length_line))]
fn push_length(reply: &mut Reply, vtype: u64, vl: u16, sums: &Sums)
    requires { length reply.old + 62 ≤ 4096 }
    ensures { reply.new ≡ reply.old ++ length_line vtype vl sums.now }
{
    reply.push(b"vl ");
    push_hex16(reply, vtype);
    push_number(reply, u64::from(vl));
    push_number(reply, sums.times);
    reply.push(b"\n");
}

/// Append the line of a jump, with its count.
#[tactic(auto, unfolding(crate::specs::RecordLines::jump_line))]
fn push_jump(reply: &mut Reply, pc: u64, target: u64, sums: &Sums)
    requires { length reply.old + 60 ≤ 4096 }
    ensures { reply.new ≡ reply.old ++ jump_line pc target sums.now }
{
    reply.push(b"call ");
    push_hex16(reply, pc);
    reply.push(b" ");
    push_hex16(reply, target);
    push_number(reply, sums.times);
    reply.push(b"\n");
}

/// Return whether all counts are zero.
fn has_no_counts(sums: &Sums) -> bool
    ensures { result ≡ has_no_counts sums.now }
{
    sums.times == 0 && sums.ticks == 0 && sums.active == 0 && sums.masked == 0 && sums.tail == 0
}

/// Append the line of a row, unless it has no counts.
#[tactic(auto, unfolding(crate::specs::RecordLines::row_line))]
fn push_row(reply: &mut Reply, row: &Row)
    requires { length reply.old + 134 ≤ 4096 }
    ensures { reply.new ≡ reply.old ++ row_line row.now }
{
    if has_no_counts(&row.sums) {
        return;
    }
    match row.key {
        Key::Word { pc, word } => push_word(reply, pc, word, &row.sums),
        Key::Length { vtype, vl } => push_length(reply, vtype, vl, &row.sums),
        Key::Jump { pc, target } => push_jump(reply, pc, target, &row.sums),
    }
}

/// Return the sort key of a row: words by address, then vector lengths by type, then jumps.
fn place_of(row: &Row) -> (u8, u64, u64)
    ensures { result ≡ place_of row.now.key }
{
    match row.key {
        Key::Word { pc, word } => (0, pc, u64::from(word)),
        Key::Length { vtype, vl } => (1, vtype, u64::from(vl)),
        Key::Jump { pc, target } => (2, pc, target),
    }
}

/// Sort the rows by the order of their lines.
pub(crate) fn sort_rows(rows: &mut [Row])
    ensures { IsPermutation rows.old rows.new }
{
    rows.sort_unstable_by_key(|row| place_of(row));
}

/// Return whether the line of a row comes before the line of another.
fn is_before(row: &Row, other: &Row) -> bool
    ensures { result ≡ true → IsBefore row.now.key other.now.key }
{
    let (kind, first, second) = place_of(row);
    let (other_kind, other_first, other_second) = place_of(other);
    if kind != other_kind {
        return kind < other_kind;
    }
    if first != other_first {
        return first < other_first;
    }
    second < other_second
}

/// Return whether the keys of the rows ascend, so that each key has one row.
pub(crate) fn ascend(rows: &[Row]) -> bool
    ensures { result ≡ true → Ascend rows.now }
{
    for i in 1..rows.len() {
        if !is_before(&rows[i - 1], &rows[i]) {
            return false;
        }
    }
    true
}

/// Write the lines of the rows.
pub(crate) fn write_rows<K: Sink>(sink: &mut K, rows: &[Row]) -> Result<(), DeviceFault>
    ensures text { OnOk result (K.took sink.old (flat_map row_line rows.now) sink.new) }
    ensures failed { OnErr result (0 < K.failures sink.new) }
{
    let mut reply = Reply::new();
    for row in rows {
        reply.clear();
        push_row(&mut reply, row);
        write_all(sink, reply.as_slice())?;
    }
    Ok(())
}

/// Return the stop of a program after an instruction with this end, or `None` if it continues.
fn stop_of(end: StepEnd) -> Option<Stop>
    ensures { result ≡ stop_of end }
{
    match end {
        StepEnd::Ran | StepEnd::Cut => None,
        StepEnd::Exit(status) => Some(Stop::Exit(status)),
        StepEnd::Ebreak => Some(Stop::Ebreak),
        StepEnd::Fault {
            cause,
            pc: _,
            value,
        } => Some(Stop::Fault { cause, value }),
        StepEnd::OutputFull => Some(Stop::OutputFull),
    }
}

/// Append that a program is running, and its program counter.
#[tactic(auto, unfolding(rv_model::specs::commands::Running::running_line))]
fn push_running(reply: &mut Reply, pc: u64)
    requires { length reply.old + 27 ≤ 4096 }
    ensures text { reply.new ≡ reply.old ++ running_line pc }
    ensures bound { length reply.new ≡ length reply.old + 27 }
{
    reply.push(b"running pc=");
    push_hex16(reply, pc);
}

/// Append the reason for a program's stop, and the program counter. Without a stop, the program used all its ticks and
/// is still running.
fn push_end(reply: &mut Reply, pc: u64, stop: Option<Stop>)
    requires { length reply.old + 75 ≤ 4096 }
    ensures text { reply.new ≡ reply.old ++ end_line pc stop }
    ensures bound { length reply.new ≤ length reply.old + 75 }
{
    match stop {
        Some(stop) => push_stop(reply, pc, stop),
        None => push_running(reply, pc),
    }
}

/// Append the last line.
#[tactic(auto, unfolding(crate::specs::RecordLines::last_line))]
fn push_last(reply: &mut Reply, pc: u64, end: Option<StepEnd>, times: u64, ticks: u64)
    requires { length reply.old + 118 ≤ 4096 }
    ensures { reply.new ≡ reply.old ++ last_line pc end times ticks }
{
    let stop = match end {
        Some(end) => stop_of(end),
        None => None,
    };
    push_end(reply, pc, stop);
    push_number(reply, times);
    push_number(reply, ticks);
    reply.push(b"\n");
}

/// Write the last line: how the program ended, its program counter, and the numbers of executed instructions and of
/// ticks.
pub(crate) fn write_last<K: Sink>(
    sink: &mut K,
    pc: u64,
    end: Option<StepEnd>,
    times: u64,
    ticks: u64,
) -> Result<(), DeviceFault>
    ensures text { OnOk result (K.took sink.old (last_line pc end times ticks) sink.new) }
    ensures failed { OnErr result (0 < K.failures sink.new) }
    ensures times { times < 2 ^ 64 }
    ensures ticks { ticks < 2 ^ 64 }
{
    let mut reply = Reply::new();
    push_last(&mut reply, pc, end, times, ticks);
    write_all(sink, reply.as_slice())
}
