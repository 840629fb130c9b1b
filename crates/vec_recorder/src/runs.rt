//! A run with its records: counts, changes, a log, and choices, each of them optional.
ghost use Rattle.std.specs.Prelude.{◌≡◌, ◌⊎◌, ◌<◌, ◌%◌, ◌^◌, ◌++◌, [], IfErr, IfOk, IfSome, IsSome, OnErr, OnOk, None, flat_map, option_map, ⊤};
ghost use Rattle.devices.specs.Device.{Rose};
ghost use Rattle.recording.specs.Machines.{state_of};
ghost use Rattle.recording.specs.Runs.{TakesFirst, output_of, ran_by, stepped};
ghost use Rattle.recording.specs.Sums.{is_word, total};
ghost use Rattle.recording.specs.declared.fault.RecordFault.{RecordFault};
ghost use Rattle.first_state.specs.OwnMemory.{own_memory};
ghost use Rattle.vec_recorder.specs.OpenArguments.{next_of};
ghost use Rattle.vec_recorder.specs.RecordLines.{last_line, row_line};
ghost use Rattle.vec_recorder.specs.Recorded.{AreChangesKept, AreChosen, AreFilesKept, AreRecordsKept, IsKept, IsLogKept, IsStopped, IsUnstarted, RecordsRun};
ghost use Rattle.vec_recorder.specs.Statuses.{HasCause, program_status, record_fault};

use crate::outputs::Outputs;
use crate::program_fault::ProgramFault;
use crate::record_lines::{ascend, sort_rows, write_last, write_rows};
use choice_log::ChoiceLog;
use commit_log::{Log, Text, Window};
use devices::{DeviceFault, Sink};
use first_state::OwnBytes;
use memory_changes::{Changes, Place, WatchedPlaces};
use open_choices::Seed;
use recording::{
    Chooser, Counts, NoChoices, OpenChooser, RecordFault, Recorder, RecorderPair, Retired, Row,
    ShortWrites, SingleUserMachine, run, totals,
};
use rv_model::StepEnd;
use std::alloc::{AllocError, Global};

/// Create the file at a path, or open an existing one.
fn created_file<'a, F: Outputs>(
    files: &mut F,
    path: &'a str,
) -> Result<F::Created, ProgramFault<'a>>
    ensures created { IfOk result (λ file. F.is_created files.old path.entry.now file files.new) }
    ensures refused { IfErr result (λ fault. program_status fault ≡ 5) }
    ensures kept { F.are_kept files.old files.new }
    ensures unfailed { OnOk result (F.failures files.new ≡ F.failures files.old) }
    ensures writes { F.write_failures files.new ≡ F.write_failures files.old }
    ensures failed { OnErr result (Rose (F.failures files.old) (F.failures files.new)) }
{
    match files.create(path) {
        Ok(file) => Ok(file),
        Err(_) => Err(ProgramFault::Write(path)),
    }
}

/// Close a file to which a write may have failed.
fn close_failed<F: Outputs>(files: &mut F, file: F::Created)
    ensures unfailed { F.failures files.new ≡ F.failures files.old }
    ensures writes { 0 < F.Created.failures file
        → Rose (F.write_failures files.old) (F.write_failures files.new) }
{
    files.close(file);
}

/// Close a file, and return the fault of the run that stopped.
fn closed_after<'a, F: Outputs>(
    files: &mut F,
    file: F::Created,
    stopped: RecordFault,
) -> ProgramFault<'a>
    ensures fault { result ≡ record_fault stopped }
    ensures unfailed { F.failures files.new ≡ F.failures files.old }
    ensures writes { 0 < F.Created.failures file
        → Rose (F.write_failures files.old) (F.write_failures files.new) }
{
    close_failed(files, file);
    ProgramFault::from(stopped)
}

/// Write the rows as the counts of a run with this end and this program counter.
fn write_counts<C: Sink>(
    file: &mut C,
    rows: &[Row],
    pc: u64,
    end: Option<StepEnd>,
) -> Result<(), DeviceFault>
    ensures text { OnOk result (C.took file.old (flat_map row_line rows.now ++ last_line pc end
        (total (λ sums. sums.times) is_word rows.now % 2 ^ 64)
        (total (λ sums. sums.ticks) is_word rows.now % 2 ^ 64)) file.new) }
    ensures failed { OnErr result (0 < C.failures file.new) }
{
    write_rows(file, rows)?;
    let sums = totals(rows);
    write_last(file, pc, end, sums.times, sums.ticks)
}

/// The parameters of a run: the maximum number of ticks, the paths of the files of counts, changes, log and choices, if
/// there are any, the watched ranges, the range of instructions in the log, and the seed of choices, if there are any.
#[derive(Drop)]
pub(crate) struct RecordedRun<'a> {
    pub ticks: u64,
    pub counts: Option<&'a str>,
    pub changes: Option<&'a str>,
    pub places: Vec<Place>,
    pub log: Option<&'a str>,
    pub window: Window,
    pub seed: Option<Seed>,
    pub chosen: Option<&'a str>,
}

/// The path of a log file, and memory for lines that aren't written yet.
#[derive(Drop)]
struct LogOutput<'a> {
    path: &'a str,
    text: Text,
}

/// The parameters of a run with a log: the maximum number of ticks, the log file, if there is one, and the range of
/// instructions in the log.
#[derive(Drop)]
struct LoggedRun<'a> {
    ticks: u64,
    log: Option<LogOutput<'a>>,
    window: Window,
}

/// The parameters of a logged run, the path of the changes file, if there is one, and the watched ranges.
#[derive(Drop)]
struct WatchedRun<'a> {
    logged: LoggedRun<'a>,
    changes: Option<&'a str>,
    watched: WatchedPlaces,
}

/// Allocate the memory of a log, if there is a path for it.
fn log_output<'a>(alloc: Global, path: Option<&'a str>) -> Result<Option<LogOutput<'a>>, AllocError>
    ensures path { IfOk result (λ log. option_map (λ log. log.path.now) log ≡ option_map (λ path. path.now) path.entry) }
    ensures empty { IfOk result (λ log. IfSome log (λ log. log.text ≡ [])) }
{
    let Some(path) = path else {
        return Ok(None);
    };
    let text = Text::new(alloc)?;
    Ok(Some(LogOutput { path, text }))
}

/// Run and record a program without a log. Return how it ended, and the record.
#[inline(never)]
fn run_unlogged<K: Sink, O: Recorder<OwnBytes> + Drop, C: Chooser<OwnBytes>>(
    machine: &mut SingleUserMachine<OwnBytes>,
    output: &mut K,
    ticks: u64,
    chooser: &mut C,
    recorder: O,
) -> Result<(Option<StepEnd>, O), RecordFault>
    ensures run { IfOk result (RecordsRun O.recorded K.took (C.next chooser.old) ticks (state_of own_memory machine.old)
        (state_of own_memory machine.new) output.old output.new recorder) }
    ensures part { OnErr result (TakesFirst K.took output.old
        (flat_map output_of (ran_by (C.next chooser.old) ticks (state_of own_memory machine.old)).found) output.new) }
    ensures failed { IfErr result (λ fault. Rose (K.failures output.old) (K.failures output.new)
        ⊎ ((last : O) × O.failed last fault)) }
{
    let mut only = recorder;
    let end = run(&mut only, chooser, machine, output, ticks)?;
    Ok((end, only))
}

/// Run and record a program, and write its log if there is a file for it. Return how it ended, and the record. The
/// function isn't inlined because the loop of a run is faster then.
#[inline(never)]
fn run_recorded<'a, F: Outputs, K: Sink, O: Recorder<OwnBytes> + Drop, C: Chooser<OwnBytes>>(
    files: &mut F,
    machine: &mut SingleUserMachine<OwnBytes>,
    output: &mut K,
    asked: LoggedRun<'a>,
    chooser: &mut C,
    recorder: O,
) -> Result<(Option<StepEnd>, O), ProgramFault<'a>>
    requires { IfSome asked.log (λ log. log.text ≡ []) }
    ensures run { IfOk result (RecordsRun O.recorded K.took (C.next chooser.old) asked.entry.ticks (state_of own_memory machine.old)
        (state_of own_memory machine.new) output.old output.new recorder) }
    ensures log { OnOk result (IsLogKept F.is_created F.Created.took F.is_closed
        (option_map (λ log. log.path.now) asked.entry.log) asked.entry.window (C.next chooser.old) asked.entry.ticks
        (state_of own_memory machine.old) files.old files.new) }
    ensures stopped { IfErr result (IsStopped K.took (C.next chooser.old) asked.entry.ticks (state_of own_memory machine.old)
        output.old output.new (HasCause ((last : O) × ((fault : RecordFault) × O.failed last fault))
        (K.failures output.old) (K.failures output.new) (F.failures files.old) (F.failures files.new)
        (F.write_failures files.old) (F.write_failures files.new))) }
    ensures kept { F.failures files.old < F.failures files.new → F.are_kept files.old files.new }
    ensures unfailed { OnOk result (F.failures files.new ≡ F.failures files.old) }
{
    let LoggedRun { ticks, log, window } = asked;
    let Some(log) = log else {
        return Ok(run_unlogged(machine, output, ticks, chooser, recorder)?);
    };
    let LogOutput { path, text } = log;
    let file = created_file(files, path)?;
    let log = Log::new(file, text, window);
    let mut both = RecorderPair {
        first: recorder,
        second: RecorderPair {
            first: Retired::none(),
            second: log,
        },
    };
    let end = match run(&mut both, chooser, machine, output, ticks) {
        Ok(end) => end,
        Err(stopped) => {
            let RecorderPair { second, .. } = both;
            return Err(closed_after(files, second.second.sink, stopped));
        }
    };
    let RecorderPair { first, second } = both;
    let RecorderPair {
        first: retired,
        second: mut log,
    } = second;
    if let Err(stopped) = log.finish() {
        return Err(closed_after(files, log.sink, stopped));
    }
    let mut log_file = log.sink;
    let pc = machine.scalar.pc;
    let Ok(()) = write_last(&mut log_file, pc, end, retired.times, retired.ticks) else {
        close_failed(files, log_file);
        return Err(ProgramFault::Write(path));
    };
    files.close(log_file);
    Ok((end, first))
}

/// Run and record as `run_recorded` does, and write the changes of watched ranges if there is a path for them.
fn run_watched<'a, F: Outputs, K: Sink, O: Recorder<OwnBytes> + Drop>(
    files: &mut F,
    machine: &mut SingleUserMachine<OwnBytes>,
    output: &mut K,
    asked: WatchedRun<'a>,
    recorder: O,
) -> Result<(Option<StepEnd>, O), ProgramFault<'a>>
    requires { IfSome asked.logged.log (λ log. log.text ≡ []) }
    ensures run { IfOk result (RecordsRun O.recorded K.took stepped asked.entry.logged.ticks (state_of own_memory machine.old)
        (state_of own_memory machine.new) output.old output.new recorder) }
    ensures changes { OnOk result (AreChangesKept F.is_created F.Created.took F.is_closed
        (option_map (λ path. path.now) asked.entry.changes) (option_map (λ log. log.path.now) asked.entry.logged.log)
        asked.entry.watched.places.items asked.entry.logged.window stepped asked.entry.logged.ticks
        (state_of own_memory machine.old) files.old files.new) }
    ensures stopped { IfErr result (IsStopped K.took stepped asked.entry.logged.ticks (state_of own_memory machine.old)
        output.old output.new (HasCause
        (((last : O) × ((fault : RecordFault) × O.failed last fault)) ⊎ IsSome (option_map (λ path. path.now) asked.entry.changes))
        (K.failures output.old) (K.failures output.new) (F.failures files.old) (F.failures files.new)
        (F.write_failures files.old) (F.write_failures files.new))) }
    ensures kept { F.failures files.old < F.failures files.new → F.are_kept files.old files.new }
    ensures unfailed { OnOk result (F.failures files.new ≡ F.failures files.old) }
{
    let WatchedRun {
        logged,
        changes,
        watched,
    } = asked;
    let Some(path) = changes else {
        return run_recorded(files, machine, output, logged, &mut NoChoices {}, recorder);
    };
    let file = created_file(files, path)?;
    let both = RecorderPair {
        first: recorder,
        second: RecorderPair {
            first: Retired::none(),
            second: Changes::new(file, watched),
        },
    };
    let (end, both) = run_recorded(files, machine, output, logged, &mut NoChoices {}, both)?;
    let RecorderPair { first, second } = both;
    let RecorderPair {
        first: retired,
        second: changes,
    } = second;
    let mut changes_file = changes.sink;
    let pc = machine.scalar.pc;
    let Ok(()) = write_last(&mut changes_file, pc, end, retired.times, retired.ticks) else {
        return Err(ProgramFault::Write(path));
    };
    files.close(changes_file);
    Ok((end, first))
}

/// Run and record as `run_watched` does, and write the counts to the file at a path. Return the number of the program's
/// write calls that wrote fewer bytes than requested.
fn run_counted<'a, F: Outputs, K: Sink>(
    files: &mut F,
    machine: &mut SingleUserMachine<OwnBytes>,
    output: &mut K,
    asked: WatchedRun<'a>,
    path: &'a str,
    counts: Counts,
) -> Result<u64, ProgramFault<'a>>
    requires text { IfSome asked.logged.log (λ log. log.text ≡ []) }
    requires rows { counts.table.rows.items ≡ [] }
    ensures output { OnOk result (K.took output.old
        (flat_map output_of (ran_by stepped asked.entry.logged.ticks (state_of own_memory machine.old)).found) output.new) }
    ensures records { OnOk result (AreRecordsKept F.is_created F.Created.took F.is_closed
        (Some path.entry.now) (option_map (λ path. path.now) asked.entry.changes)
        (option_map (λ log. log.path.now) asked.entry.logged.log) asked.entry.watched.places.items asked.entry.logged.window
        stepped asked.entry.logged.ticks (state_of own_memory machine.old) files.old files.new) }
    ensures stopped { IfErr result (IsStopped K.took stepped asked.entry.logged.ticks (state_of own_memory machine.old)
        output.old output.new ⊤) }
    ensures kept { F.failures files.old < F.failures files.new → F.are_kept files.old files.new }
{
    let mut counts_file = created_file(files, path)?;
    let both = RecorderPair {
        first: ShortWrites::none(),
        second: counts,
    };
    let (end, mut both) = run_watched(files, machine, output, asked, both)?;
    let rows = both.second.table.rows.as_mut_slice();
    sort_rows(&mut *rows);
    if !ascend(&*rows) {
        return Err(ProgramFault::RepeatedRow);
    }
    let Ok(()) = write_counts(&mut counts_file, &*rows, machine.scalar.pc, end) else {
        return Err(ProgramFault::Write(path));
    };
    files.close(counts_file);
    Ok(both.first.count)
}

/// Run a program with the choices of a seed, and write its log if there is a file for it. Return the number of the
/// program's write calls that wrote fewer bytes than requested.
fn run_chosen<'a, F: Outputs, K: Sink>(
    files: &mut F,
    machine: &mut SingleUserMachine<OwnBytes>,
    output: &mut K,
    asked: LoggedRun<'a>,
    seed: Seed,
) -> Result<u64, ProgramFault<'a>>
    requires { IfSome asked.log (λ log. log.text ≡ []) }
    ensures output { OnOk result (K.took output.old
        (flat_map output_of (ran_by (next_of (Some seed)) asked.entry.ticks (state_of own_memory machine.old)).found) output.new) }
    ensures log { OnOk result (IsLogKept F.is_created F.Created.took F.is_closed
        (option_map (λ log. log.path.now) asked.entry.log) asked.entry.window (next_of (Some seed)) asked.entry.ticks
        (state_of own_memory machine.old) files.old files.new) }
    ensures stopped { IfErr result (IsStopped K.took (next_of (Some seed)) asked.entry.ticks (state_of own_memory machine.old)
        output.old output.new (HasCause ⊥
        (K.failures output.old) (K.failures output.new) (F.failures files.old) (F.failures files.new)
        (F.write_failures files.old) (F.write_failures files.new))) }
    ensures kept { F.failures files.old < F.failures files.new → F.are_kept files.old files.new }
{
    let mut chooser = OpenChooser::new(seed);
    let short = ShortWrites::none();
    let (_, short) = run_recorded(files, machine, output, asked, &mut chooser, short)?;
    Ok(short.count)
}

/// Run a program with the choices of a seed as `run_chosen` does, and write its choices to the file at a path. Return the
/// number of the program's write calls that wrote fewer bytes than requested.
fn run_listed<'a, F: Outputs, K: Sink>(
    files: &mut F,
    machine: &mut SingleUserMachine<OwnBytes>,
    output: &mut K,
    asked: LoggedRun<'a>,
    seed: Seed,
    path: &'a str,
) -> Result<u64, ProgramFault<'a>>
    requires { IfSome asked.log (λ log. log.text ≡ []) }
    ensures output { OnOk result (K.took output.old
        (flat_map output_of (ran_by (next_of (Some seed)) asked.entry.ticks (state_of own_memory machine.old)).found) output.new) }
    ensures chosen { OnOk result (IsKept F.is_created F.Created.took F.is_closed (Some path.entry.now)
        (λ printed. AreChosen printed (Some seed) asked.entry.ticks (state_of own_memory machine.old))
        (IsLogKept F.is_created F.Created.took F.is_closed (option_map (λ log. log.path.now) asked.entry.log)
        asked.entry.window (next_of (Some seed)) asked.entry.ticks (state_of own_memory machine.old)) files.old files.new) }
    ensures stopped { IfErr result (IsStopped K.took (next_of (Some seed)) asked.entry.ticks (state_of own_memory machine.old)
        output.old output.new ⊤) }
    ensures kept { F.failures files.old < F.failures files.new → F.are_kept files.old files.new }
{
    let mut chooser = OpenChooser::new(seed);
    let file = created_file(files, path)?;
    let both = RecorderPair {
        first: ShortWrites::none(),
        second: ChoiceLog::new(file, seed),
    };
    let (_, both) = run_recorded(files, machine, output, asked, &mut chooser, both)?;
    let RecorderPair { first, second } = both;
    let mut chosen_file = second.sink;
    // The first write removes the file's old bytes. A run without choices hasn't written anything yet.
    let Ok(_) = chosen_file.write(b"") else {
        return Err(ProgramFault::Write(path));
    };
    files.close(chosen_file);
    Ok(first.count)
}

/// Run a program without choices, and write its counts, the changes of watched ranges and its log to the files whose
/// paths are given. All memory is allocated before a file is created. Return the number of the program's write calls
/// that wrote fewer bytes than requested.
fn run_unchosen<'a, F: Outputs, K: Sink>(
    files: &mut F,
    alloc: Global,
    machine: &mut SingleUserMachine<OwnBytes>,
    output: &mut K,
    asked: RecordedRun<'a>,
) -> Result<u64, ProgramFault<'a>>
    ensures output { OnOk result (K.took output.old
        (flat_map output_of (ran_by stepped asked.entry.ticks (state_of own_memory machine.old)).found) output.new) }
    ensures records { OnOk result (AreRecordsKept F.is_created F.Created.took F.is_closed
        (option_map (λ path. path.now) asked.entry.counts) (option_map (λ path. path.now) asked.entry.changes)
        (option_map (λ path. path.now) asked.entry.log) asked.entry.places.items asked.entry.window
        stepped asked.entry.ticks (state_of own_memory machine.old) files.old files.new) }
    ensures stopped { IfErr result (λ fault. IsUnstarted K.took output.old output.new files.old files.new fault
        ⊎ IsStopped K.took stepped asked.entry.ticks (state_of own_memory machine.old)
        output.old output.new (HasCause
        (IsSome (option_map (λ path. path.now) asked.entry.counts)
        ⊎ IsSome (option_map (λ path. path.now) asked.entry.changes))
        (K.failures output.old) (K.failures output.new) (F.failures files.old) (F.failures files.new)
        (F.write_failures files.old) (F.write_failures files.new)) fault) }
    ensures kept { F.failures files.old < F.failures files.new → F.are_kept files.old files.new }
{
    let RecordedRun {
        ticks,
        counts,
        changes,
        places,
        log,
        window,
        ..
    } = asked;
    let Ok(log) = log_output(alloc, log) else {
        return Err(ProgramFault::NoMemory);
    };
    let watched = WatchedPlaces::new(alloc, places)?;
    let asked = WatchedRun {
        logged: LoggedRun { ticks, log, window },
        changes,
        watched,
    };
    let Some(path) = counts else {
        let (_, short) = run_watched(files, machine, output, asked, ShortWrites::none())?;
        return Ok(short.count);
    };
    let counts = Counts::new(alloc)?;
    run_counted(files, machine, output, asked, path, counts)
}

/// Run a program, with the choices of a seed if there is one, and write its counts, the changes of watched ranges, its log
/// and its choices to the files whose paths are given. All memory is allocated before a file is created. Return the number of the
/// program's write calls that wrote fewer bytes than requested.
pub(crate) fn run_machine<'a, F: Outputs, K: Sink>(
    files: &mut F,
    alloc: Global,
    machine: &mut SingleUserMachine<OwnBytes>,
    output: &mut K,
    asked: RecordedRun<'a>,
) -> Result<u64, ProgramFault<'a>>
    requires alone { IsSome asked.seed → (option_map (λ path. path.now) asked.counts ≡ None) × (option_map (λ path. path.now) asked.changes ≡ None) }
    requires unchosen { asked.seed ≡ None → option_map (λ path. path.now) asked.chosen ≡ None }
    ensures output { OnOk result (K.took output.old
        (flat_map output_of (ran_by (next_of asked.entry.seed) asked.entry.ticks (state_of own_memory machine.old)).found) output.new) }
    ensures records { OnOk result (AreFilesKept F.is_created F.Created.took F.is_closed
        (option_map (λ path. path.now) asked.entry.counts) (option_map (λ path. path.now) asked.entry.changes)
        (option_map (λ path. path.now) asked.entry.log) (option_map (λ path. path.now) asked.entry.chosen)
        asked.entry.places.items asked.entry.window asked.entry.seed asked.entry.ticks
        (state_of own_memory machine.old) files.old files.new) }
    ensures stopped { IfErr result (λ fault. IsUnstarted K.took output.old output.new files.old files.new fault
        ⊎ IsStopped K.took (next_of asked.entry.seed) asked.entry.ticks (state_of own_memory machine.old)
        output.old output.new (HasCause
        ((IsSome (option_map (λ path. path.now) asked.entry.counts)
        ⊎ IsSome (option_map (λ path. path.now) asked.entry.changes))
        ⊎ IsSome (option_map (λ path. path.now) asked.entry.chosen))
        (K.failures output.old) (K.failures output.new) (F.failures files.old) (F.failures files.new)
        (F.write_failures files.old) (F.write_failures files.new)) fault) }
    ensures kept { F.failures files.old < F.failures files.new → F.are_kept files.old files.new }
{
    let Some(seed) = asked.seed else {
        return run_unchosen(files, alloc, machine, output, asked);
    };
    let RecordedRun {
        ticks,
        log,
        window,
        chosen,
        ..
    } = asked;
    let Ok(log) = log_output(alloc, log) else {
        return Err(ProgramFault::NoMemory);
    };
    let logged = LoggedRun { ticks, log, window };
    let Some(path) = chosen else {
        return run_chosen(files, machine, output, logged, seed);
    };
    run_listed(files, machine, output, logged, seed, path)
}
