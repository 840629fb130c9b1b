//! The program: it runs one user's program, and writes the output to a sink and the records to files.
ghost use Rattle.std.specs.Prelude.{◌≡◌, ◌<◌, ◌⊎◌, [], IfErr, IfOk, IsSome, OnOk, flat_map, ⊤};
ghost use Rattle.clap.specs.Walk.{texts};
ghost use Rattle.clap.specs.Words.{IsAmong};
ghost use Rattle.clap.specs.declared.error.kind.ErrorKind.TheVariants.{DisplayHelp};
ghost use Rattle.recording.specs.Machines.{state_of};
ghost use Rattle.recording.specs.Runs.{TakesFirst, output_of, ran_by};
ghost use Rattle.first_state.specs.Loaded.{entered};
ghost use Rattle.first_state.specs.OwnMemory.{own_memory};
ghost use Rattle.vec_recorder.specs.CommandLine.{option_arguments, arguments_fault, run_arguments};
ghost use Rattle.vec_recorder.specs.OpenArguments.{next_of};
ghost use Rattle.vec_recorder.specs.Recorded.{IsComplete, IsHelped, Recorded, RecordedBy, RunBy};
ghost use Rattle.vec_recorder.specs.Statuses.{HasCause, program_status};

use crate::arguments::options;
use crate::command_line::{Options, UsageFault};
use crate::initial_machine::prepare;
use crate::log_arguments::check_log;
use crate::memory_arguments::{MemoryPath, memory_paths};
use crate::numbers::{policy, ticks, window};
use crate::open_arguments::open_seed;
use crate::outputs::{Outputs, ProcessFiles};
use crate::paths::check_paths;
use crate::program_fault::{ProgramFault, STATUS_DONE};
use crate::runs::{RecordedRun, run_machine};
use crate::watch_arguments::watched_places;
use commit_log::Window;
use devices::{Inputs, Sink, TextFault, WriterSink, write_text};
use first_state::{OwnBytes, enter};
use memory_changes::{Place, has_memory};
use open_choices::Seed;
use recording::SingleUserMachine;
use rv_model::Policy;
use std::alloc::Global;
use std::io;
use std::rt::Files;
use user_mem::NoMemory;

/// Check that each watched range is mapped. Return `NoPlace` otherwise.
fn check_places<'a>(
    machine: &SingleUserMachine<OwnBytes>,
    places: &[Place],
) -> Result<(), ProgramFault<'a>>
    ensures { IfErr result (λ fault. program_status fault ≡ 4) }
{
    for place in places {
        if !has_memory(&machine.memory, place) {
            return Err(ProgramFault::NoPlace);
        }
    }
    Ok(())
}

/// The parsed and checked values of the options.
#[derive(Drop)]
struct CheckedOptions<'a> {
    policy: Policy,
    ticks: u64,
    memories: Vec<MemoryPath<'a>>,
    places: Vec<Place>,
    window: Window,
    seed: Option<Seed>,
}

/// Run a machine that was just created with these values. The record files are created once all memory is allocated.
/// Return the number of the program's write calls that wrote fewer bytes than requested.
// Out of line, and with the machine by value: the caller's frame has one copy of the machine while `enter` runs.
#[inline(never)]
fn run_options<'a, I: Inputs, F: Outputs, K: Sink>(
    inputs: &I,
    alloc: Global,
    created: Result<SingleUserMachine<OwnBytes>, NoMemory>,
    options: &Options<'a>,
    values: CheckedOptions<'a>,
    output: &mut K,
    files: &mut F,
) -> Result<u64, ProgramFault<'a>>
    requires machine { IfOk created (λ machine. (state_of own_memory machine ≡ entered machine.policy)
        × (machine.policy ≡ values.policy)) }
    requires alone { IsSome values.seed → ((option_arguments options.now).counts ≡ None) × ((option_arguments options.now).changes ≡ None) }
    requires unchosen { values.seed ≡ None → (option_arguments options.now).chosen ≡ None }
    ensures ran { OnOk result (RunBy (I.file_bytes inputs.now) (option_arguments options.now) values.entry.policy
        values.entry.memories.items (IsComplete F.is_created F.Created.took F.is_closed
        (λ printed. K.took output.old printed output.new) (option_arguments options.now) files.old files.new
        values.entry.seed values.entry.ticks values.entry.places.items values.entry.window)) }
    ensures printed { K.took output.old [] output.new ⊎ RunBy (I.file_bytes inputs.now) (option_arguments options.now)
        values.entry.policy values.entry.memories.items (λ state. TakesFirst K.took output.old
        (flat_map output_of (ran_by (next_of values.entry.seed) values.entry.ticks state).found) output.new) }
    ensures nothing { IfErr result (λ fault.
        (program_status fault ≡ 2) ⊎ ((program_status fault ≡ 4) ⊎ (program_status fault ≡ 6)) → K.took output.old [] output.new) }
    ensures unused { IfErr result (λ fault.
        (program_status fault ≡ 2) ⊎ ((program_status fault ≡ 4) ⊎ (program_status fault ≡ 6)) → files.new ≡ files.old) }
    ensures failed { IfErr result (λ fault. program_status fault ≡ 5 → HasCause
        ((IsSome (option_arguments options.now).counts ⊎ IsSome (option_arguments options.now).changes)
        ⊎ IsSome (option_arguments options.now).chosen)
        (K.failures output.old) (K.failures output.new) (F.failures files.old) (F.failures files.new)
        (F.write_failures files.old) (F.write_failures files.new)) }
    ensures kept { F.failures files.old < F.failures files.new → F.are_kept files.old files.new }
{
    let CheckedOptions {
        ticks,
        memories,
        places,
        window,
        seed,
        ..
    } = values;
    let Ok(mut machine) = created else {
        return Err(ProgramFault::NoMemory);
    };
    prepare(
        inputs,
        alloc,
        &mut machine,
        options.image,
        memories.as_slice(),
        options.registers,
    )?;
    check_places(&machine, places.as_slice())?;
    let asked = RecordedRun {
        ticks,
        counts: options.counts,
        changes: options.changes,
        places,
        log: options.log,
        window,
        seed,
        chosen: options.chosen,
    };
    let short = run_machine(files, alloc, &mut machine, output, asked)?;
    Ok(short)
}

/// Run and record a program with the options. All values are parsed and checked before any file is opened. Return the
/// number of the program's write calls that wrote fewer bytes than requested.
fn record_options<'a, I: Inputs, F: Outputs, K: Sink>(
    inputs: &I,
    alloc: Global,
    options: &Options<'a>,
    output: &mut K,
    files: &mut F,
) -> Result<u64, ProgramFault<'a>>
    ensures ran { OnOk result (RecordedBy (I.file_bytes inputs.now) (option_arguments options.now)
        (IsComplete F.is_created F.Created.took F.is_closed (λ printed. K.took output.old printed output.new)
        (option_arguments options.now) files.old files.new)) }
    ensures printed { K.took output.old [] output.new
        ⊎ RecordedBy (I.file_bytes inputs.now) (option_arguments options.now) (λ seed ticks _ _ state.
        TakesFirst K.took output.old (flat_map output_of (ran_by (next_of seed) ticks state).found) output.new) }
    ensures nothing { IfErr result (λ fault.
        (program_status fault ≡ 2) ⊎ ((program_status fault ≡ 4) ⊎ (program_status fault ≡ 6)) → K.took output.old [] output.new) }
    ensures unused { IfErr result (λ fault.
        (program_status fault ≡ 2) ⊎ ((program_status fault ≡ 4) ⊎ (program_status fault ≡ 6)) → files.new ≡ files.old) }
    ensures failed { IfErr result (λ fault. program_status fault ≡ 5 → HasCause
        ((IsSome (option_arguments options.now).counts ⊎ IsSome (option_arguments options.now).changes)
        ⊎ IsSome (option_arguments options.now).chosen)
        (K.failures output.old) (K.failures output.new) (F.failures files.old) (F.failures files.new)
        (F.write_failures files.old) (F.write_failures files.new)) }
    ensures kept { F.failures files.old < F.failures files.new → F.are_kept files.old files.new }
{
    let policy = policy(options.policy)?;
    let ticks = ticks(options.ticks)?;
    let window = window(options.from, options.to)?;
    check_log(options)?;
    let seed = open_seed(options)?;
    let memories = memory_paths(alloc, options.memory.as_slice())?;
    let places = watched_places(alloc, options.watch.as_slice())?;
    if places.is_empty() != options.changes.is_none() {
        return Err(ProgramFault::WatchAlone);
    }
    check_paths(&*files, alloc, options, memories.as_slice())?;
    let values = CheckedOptions {
        policy,
        ticks,
        memories,
        places,
        window,
        seed,
    };
    run_options(
        inputs,
        alloc,
        enter(alloc, policy),
        options,
        values,
        output,
        files,
    )
}

/// Run the recorder with its arguments: write help, or record a run. Return the number of the program's write calls
/// that wrote fewer bytes than requested.
fn record_arguments<'a, I: Inputs, F: Outputs, K: Sink>(
    inputs: &I,
    alloc: Global,
    arguments: &'a [&'a str],
    output: &mut K,
    files: &mut F,
) -> Result<u64, ProgramFault<'a>>
    ensures recorded { OnOk result (
        IsHelped (texts arguments.now) (λ printed. K.took output.old printed output.new) files.old files.new
        ⊎ Recorded (I.file_bytes inputs.now) (texts arguments.now)
        (IsComplete F.is_created F.Created.took F.is_closed (λ printed. K.took output.old printed output.new)
        (run_arguments (texts arguments.now)) files.old files.new)) }
    ensures printed { K.took output.old [] output.new
        ⊎ (IsHelped (texts arguments.now) (λ printed. K.took output.old printed output.new) files.old files.new
        ⊎ Recorded (I.file_bytes inputs.now) (texts arguments.now) (λ seed ticks _ _ state.
        TakesFirst K.took output.old (flat_map output_of (ran_by (next_of seed) ticks state).found) output.new)) }
    ensures nothing { IfErr result (λ fault.
        (program_status fault ≡ 2) ⊎ ((program_status fault ≡ 4) ⊎ (program_status fault ≡ 6)) → K.took output.old [] output.new) }
    ensures unused { IfErr result (λ fault.
        (program_status fault ≡ 2) ⊎ ((program_status fault ≡ 4) ⊎ (program_status fault ≡ 6)) → files.new ≡ files.old) }
    ensures failed { IfErr result (λ fault. program_status fault ≡ 5 → HasCause
        ((IsSome (run_arguments (texts arguments.now)).counts ⊎ IsSome (run_arguments (texts arguments.now)).changes)
        ⊎ IsSome (run_arguments (texts arguments.now)).chosen)
        (K.failures output.old) (K.failures output.new) (F.failures files.old) (F.failures files.new)
        (F.write_failures files.old) (F.write_failures files.new)) }
    ensures kept { F.failures files.old < F.failures files.new → F.are_kept files.old files.new }
{
    match options(alloc, arguments) {
        Ok(options) => record_options(inputs, alloc, &options, output, files),
        Err(UsageFault::Help(text)) => match write_text(alloc, output, text) {
            Ok(()) => Ok(0),
            Err(TextFault::Unwritten) => Err(ProgramFault::Write("output")),
            Err(TextFault::NoMemory) => Err(ProgramFault::NoMemory),
        },
        Err(UsageFault::Usage(text)) => Err(ProgramFault::Usage(text)),
        Err(UsageFault::NoMemory) => Err(ProgramFault::NoMemory),
    }
}

/// Print the message of a fault to standard error, and return its exit status.
pub fn report<R: Eprint>(rt: &R, fault: &ProgramFault<'_>) -> u8
    ensures { result ≡ program_status fault.now }
{
    let _ = eprint!(rt; "{fault}");
    fault.status()
}

/// Print to standard error the number of write calls that wrote fewer bytes than requested, if there are any.
fn report_short<R: Eprint>(rt: &R, short: u64) {
    if short > 0 {
        let _ = eprint!(rt;
            "vecmon-record: calls that wrote less than they were asked to: {short}\n"
        );
    }
}

/// Run the recorder. `arguments` are the command-line arguments; the first is the program's name. The output of the
/// recorded program, or the help text, is written to `output`, and the records to files of `files`. Error messages, and
/// the number of write calls that wrote fewer bytes than requested, are printed to standard error. Return the exit
/// status.
pub fn record_into<R: Inputs + Eprint, F: Outputs, K: Sink>(
    rt: &R,
    alloc: Global,
    arguments: &[&str],
    output: &mut K,
    files: &mut F,
) -> u8
    ensures statuses { (result ≡ 0) ⊎ ((result ≡ 2) ⊎ ((result ≡ 4) ⊎ ((result ≡ 5) ⊎ (result ≡ 6)))) }
    // The exit status is 0 if the arguments ask for help, which is then the output. It is also 0 if the run that they
    // describe was executed with the specified output, and its counts, changes, log and choices are in the files that
    // they name. These files have no other bytes, and no other file was created.
    ensures recorded { result ≡ 0 →
        IsHelped (texts arguments.now) (λ printed. K.took output.old printed output.new) files.old files.new
        ⊎ Recorded (R.file_bytes rt.now) (texts arguments.now)
        (IsComplete F.is_created F.Created.took F.is_closed (λ printed. K.took output.old printed output.new)
        (run_arguments (texts arguments.now)) files.old files.new) }
    // For every exit status, the output is empty, help, or a prefix of the output of the run that the arguments describe.
    ensures printed { K.took output.old [] output.new
        ⊎ (IsHelped (texts arguments.now) (λ printed. K.took output.old printed output.new) files.old files.new
        ⊎ Recorded (R.file_bytes rt.now) (texts arguments.now) (λ seed ticks _ _ state.
        TakesFirst K.took output.old (flat_map output_of (ran_by (next_of seed) ticks state).found) output.new)) }
    ensures nothing { (result ≡ 2) ⊎ ((result ≡ 4) ⊎ (result ≡ 6)) → K.took output.old [] output.new }
    // No file was created, written or closed.
    ensures unused { (result ≡ 2) ⊎ ((result ≡ 4) ⊎ (result ≡ 6)) → files.new ≡ files.old }
    // The exit status is 5 only if a write to the output failed, a file couldn't be created, a write to a closed file
    // failed, or the arguments name a file of counts, changes or choices.
    ensures failed { result ≡ 5 → HasCause
        ((IsSome (run_arguments (texts arguments.now)).counts ⊎ IsSome (run_arguments (texts arguments.now)).changes)
        ⊎ IsSome (run_arguments (texts arguments.now)).chosen)
        (K.failures output.old) (K.failures output.new) (F.failures files.old) (F.failures files.new)
        (F.write_failures files.old) (F.write_failures files.new) }
    // If a file couldn't be created, no file that existed has changed.
    ensures kept { F.failures files.old < F.failures files.new → F.are_kept files.old files.new }
{
    match record_arguments(rt, alloc, arguments, output, files) {
        Ok(short) => {
            report_short(rt, short);
            STATUS_DONE
        }
        Err(fault) => report(rt, &fault),
    }
}

/// Run the recorder as `record_into` does, with standard output as the output and the files of the process. Their bytes
/// are unspecified.
pub fn record<R: Inputs + Files + Print + Eprint>(rt: &R, alloc: Global, arguments: &[&str]) -> u8
    ensures statuses { (result ≡ 0) ⊎ ((result ≡ 2) ⊎ ((result ≡ 4) ⊎ ((result ≡ 5) ⊎ (result ≡ 6)))) }
    ensures recorded { result ≡ 0 → IsAmong DisplayHelp (arguments_fault (texts arguments.now))
        ⊎ Recorded (R.file_bytes rt.now) (texts arguments.now) (λ _ _ _ _ _. ⊤) }
{
    record_into(
        rt,
        alloc,
        arguments,
        &mut WriterSink::new(io::writer(rt)),
        &mut ProcessFiles::new(rt),
    )
}
