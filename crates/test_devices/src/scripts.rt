//! Runs of a script of two lines, with a writer that accepts its output in pieces, and with a writer or a reader that
//! fails at each of its calls in turn. The same machine runs another script after each run, so failures must leave it
//! usable. Each check begins and ends with user 1 absent.
use crate::pieces::{NEVER, Newlines, PieceReader, PieceWriter};
use std::alloc::{AllocError, Global};
use std::io::Read;
use vec_monitor::{Machine, ReaderSource, RunFault, WriterSink, run};

const SCRIPT: &str = "1 enter\n1 state\n";

const OUTPUT: &str = "1 entered\n1 state stopped pc=0000000000000000\n";

/// The length of the first line of `OUTPUT`.
const FIRST: usize = 10;

/// Sizes of pieces in bytes, and the number of calls in which a writer accepts the two replies, of 10 and 36 bytes.
const PIECES: [(usize, u64); 4] = [(1, 46), (3, 16), (7, 8), (64, 2)];

/// The machine of all runs.
pub(crate) type TestMachine = Machine<'static, Global>;

/// Run a script on a machine.
fn run_on<R: Read + Drop>(
    machine: &mut TestMachine,
    reader: R,
    writer: &mut PieceWriter,
) -> Result<(), RunFault> {
    let mut source = ReaderSource::new(reader);
    let mut sink = WriterSink::new(writer);
    run(machine, &mut source, &mut sink)
}

/// Whether a machine has this output for a script, without a failure.
fn is_answered(alloc: Global, machine: &mut TestMachine, script: &str, output: &str) -> bool {
    let mut writer = PieceWriter::new(alloc, usize::MAX, NEVER);
    let result = run_on(machine, script.as_bytes(), &mut writer);
    result.is_ok() && writer.bytes.as_slice() == output.as_bytes()
}

/// Whether a writer that accepts at most `piece` bytes in a call receives the whole output once, in `calls` calls.
fn is_written(alloc: Global, machine: &mut TestMachine, piece: usize, calls: u64) -> bool {
    let mut writer = PieceWriter::new(alloc, piece, NEVER);
    let result = run_on(machine, SCRIPT.as_bytes(), &mut writer);
    result.is_ok()
        && writer.bytes.as_slice() == OUTPUT.as_bytes()
        && writer.calls == calls
        && is_answered(alloc, machine, "1 leave\n", "1 left\n")
}

/// Whether a run ends at a failing write, which isn't repeated, after these bytes. The first command has been executed.
fn is_write_failure(
    alloc: Global,
    machine: &mut TestMachine,
    piece: usize,
    failing: u64,
    bytes: &[u8],
) -> bool {
    let mut writer = PieceWriter::new(alloc, piece, failing);
    let result = run_on(machine, SCRIPT.as_bytes(), &mut writer);
    let again = "1 state stopped pc=0000000000000000\n1 left\n";
    matches!(result, Err(RunFault::Write))
        && writer.bytes.as_slice() == bytes
        && writer.calls == failing
        && is_answered(alloc, machine, "1 state\n1 leave\n", again)
}

/// Whether a run ends at the failing read after the first `length` bytes of the script. Only the lines that end in
/// these bytes have been executed; the rest is dropped.
fn is_read_failure(alloc: Global, machine: &mut TestMachine, failing: u64, length: usize) -> bool {
    let reader = PieceReader::new(SCRIPT.as_bytes(), 1, failing);
    let mut writer = PieceWriter::new(alloc, usize::MAX, NEVER);
    let result = run_on(machine, reader, &mut writer);
    let (output, again) = match length {
        0..=7 => (0, "1 E05\n"),
        8..=15 => (FIRST, "1 left\n"),
        _ => (OUTPUT.len(), "1 left\n"),
    };
    matches!(result, Err(RunFault::Read))
        && writer.bytes.as_slice() == &OUTPUT.as_bytes()[..output]
        && is_answered(alloc, machine, "1 leave\n", again)
}

/// Whether an endless script of empty lines is too long, and has no output.
fn is_too_long(alloc: Global, machine: &mut TestMachine) -> bool {
    let mut writer = PieceWriter::new(alloc, usize::MAX, NEVER);
    let result = run_on(machine, Newlines, &mut writer);
    matches!(result, Err(RunFault::TooLong))
        && writer.bytes.is_empty()
        && is_answered(alloc, machine, "1 enter\n1 leave\n", "1 entered\n1 left\n")
}

/// Return whether the output arrives whole in pieces of each size.
pub(crate) fn small_writes(
    alloc: Global,
    machine: &mut TestMachine,
) -> Result<Vec<bool>, AllocError> {
    let mut results = Vec::new(alloc);
    for (piece, calls) in PIECES {
        results.push(is_written(alloc, machine, piece, calls))?;
    }
    Ok(results)
}

/// Make each write of one byte fail in turn, and the second write of three bytes.
pub(crate) fn failing_writes(
    alloc: Global,
    machine: &mut TestMachine,
) -> Result<Vec<bool>, AllocError> {
    let mut results = Vec::new(alloc);
    results.push(is_write_failure(alloc, machine, 3, 2, b"1 e"))?;
    let mut failing = 0u64;
    for length in 0..OUTPUT.len() {
        failing = failing.saturating_add(1);
        let bytes = &OUTPUT.as_bytes()[..length];
        results.push(is_write_failure(alloc, machine, 1, failing, bytes))?;
    }
    Ok(results)
}

/// Make each read of one byte fail in turn, that of the end too. The last run is that of an endless script.
pub(crate) fn failing_reads(
    alloc: Global,
    machine: &mut TestMachine,
) -> Result<Vec<bool>, AllocError> {
    let mut results = Vec::new(alloc);
    let mut failing = 0u64;
    for length in 0..=SCRIPT.len() {
        failing = failing.saturating_add(1);
        results.push(is_read_failure(alloc, machine, failing, length))?;
    }
    results.push(is_too_long(alloc, machine))?;
    Ok(results)
}
