//! The program: it executes a script from a file or standard input, and writes the replies to an output.
ghost use Rattle.std.specs.Prelude.{◌≡◌, ◌≢◌, ◌≤◌, ◌⊎◌, [], Err, IfErr, IfOk, IsErrAnd, OnOk, option_map, ⊤};
ghost use Rattle.std.specs.List.{Any};
ghost use Rattle.std.specs.Option.{option_map_or};
ghost use Rattle.clap.specs.Walk.{texts};
ghost use Rattle.clap.specs.Words.{IsAmong};
ghost use Rattle.clap.specs.declared.error.kind.ErrorKind.TheVariants.{DisplayHelp};
ghost use Rattle.devices.specs.Device.{Rose};
ghost use Rattle.either.specs.Either.{either};
ghost use Rattle.rv_model.specs.machine.Script.{new_world};
ghost use Rattle.vec_monitor.specs.CommandLine.{image_arguments, script_word, arguments_fault};
ghost use Rattle.vec_monitor.specs.ImageArguments.{LacksEqualsSign};
ghost use Rattle.vec_monitor.specs.ProgramRuns.{HasRun, IsHelped, OutputPrefix, RanOptions, RanScript, RanArguments};
ghost use Rattle.vec_monitor.specs.Statuses.{program_status, AreRefused, IsRunFault, IsTooLong, IsUnread, MayBeRefused};
ghost use Rattle.vec_monitor.specs.declared.program_fault.ProgramFault.TheVariants.{ImageArgument, NoMemory};

use crate::arguments::options;
use crate::command_line::{Options, UsageFault};
use crate::image_arguments::image_paths;
use crate::image_files::{borrowed_images, read_images};
use crate::program_fault::{ProgramFault, STATUS_DONE};
use crate::script_reader::{ScriptReader, open_script};
use devices::{Inputs, TextFault, write_text};
use monitor_machine::{Machine, NewFault};
use monitor_script::{RunFault, Sink, WriterSink, run};
use std::alloc::{Allocator, Global};
use std::io::{self, Read};

/// Execute the script from a reader. However the run ends, a new machine outputs at most a prefix of the script's
/// specified output.
fn run_reader<F: Read + Drop, S: Read + Drop, K: Sink, A: Allocator>(
    machine: &mut Machine<'_, A>,
    script: &mut ScriptReader<F, S>,
    output: &mut K,
) -> Result<(), RunFault>
    ensures ran { machine.old.world ≡ new_world → OnOk result (
        RanScript (λ printed. K.took output.old printed output.new) machine.old.setup
        (either F.remaining S.remaining script.old.reader)) }
    ensures printed { machine.old.world ≡ new_world →
        OutputPrefix (λ printed. K.took output.old printed output.new) machine.old.setup
        (either F.remaining S.remaining script.old.reader) }
    ensures failed { result ≡ Err RunFault.Write → Rose (K.failures output.old) (K.failures output.new) }
    ensures unread { IfErr result (λ stopped. IsUnread script.old.failures script.new.failures
        (either F.remaining S.remaining script.old.reader) stopped) }
{
    run(machine, script, output)
}

/// Execute the script at a path, or the one that `reader` reads if there is no path.
fn run_script<I: Inputs, S: Read + Drop, K: Sink, A: Allocator>(
    inputs: &I,
    machine: &mut Machine<'_, A>,
    script: Option<&str>,
    reader: &mut ScriptReader<I::File, S>,
    output: &mut K,
) -> Result<(), RunFault>
    ensures ran { machine.old.world ≡ new_world → OnOk result (
        RanScript (λ printed. K.took output.old printed output.new) machine.old.setup
        (option_map_or (I.file_bytes inputs.now) (option_map (λ path. path.now) script.entry)
        (either I.File.remaining S.remaining reader.old.reader))) }
    ensures printed { machine.old.world ≡ new_world →
        OutputPrefix (λ printed. K.took output.old printed output.new) machine.old.setup
        (option_map_or (I.file_bytes inputs.now) (option_map (λ path. path.now) script.entry)
        (either I.File.remaining S.remaining reader.old.reader)) }
    ensures failed { result ≡ Err RunFault.Write → Rose (K.failures output.old) (K.failures output.new) }
    ensures unread { IfErr result (λ stopped. IsUnread reader.old.failures reader.new.failures
        (option_map_or (I.file_bytes inputs.now) (option_map (λ path. path.now) script.entry)
        (either I.File.remaining S.remaining reader.old.reader)) stopped) }
{
    match script {
        Some(path) => {
            let Ok(()) = open_script(reader, inputs, path) else {
                return Err(RunFault::Read);
            };
            run_reader(machine, reader, output)
        }
        None => run_reader(machine, reader, output),
    }
}

/// Execute a script as `run_script` does, with a machine that was just created, or return the fault of its creation.
// Out of line, and with the machine by value: the caller's frame has one copy of the machine while `Machine::new` runs.
#[inline(never)]
fn run_machine<'a, I: Inputs, S: Read + Drop, K: Sink, A: Allocator>(
    inputs: &I,
    created: Result<Machine<'_, A>, NewFault>,
    script: Option<&str>,
    reader: &mut ScriptReader<I::File, S>,
    output: &mut K,
) -> Result<(), ProgramFault<'a>>
    requires { IfOk created (λ machine. machine.world ≡ new_world) }
    ensures ran { OnOk result (HasRun created.entry (λ setup.
        RanScript (λ printed. K.took output.old printed output.new) setup
        (option_map_or (I.file_bytes inputs.now) (option_map (λ path. path.now) script.entry)
        (either I.File.remaining S.remaining reader.old.reader)))) }
    ensures printed { K.took output.old [] output.new ⊎ HasRun created.entry (λ setup.
        OutputPrefix (λ printed. K.took output.old printed output.new) setup
        (option_map_or (I.file_bytes inputs.now) (option_map (λ path. path.now) script.entry)
        (either I.File.remaining S.remaining reader.old.reader))) }
    ensures fault { IfErr result (IsRunFault created.entry (K.took output.old [] output.new)
        (Rose (K.failures output.old) (K.failures output.new))
        (IsUnread reader.old.failures reader.new.failures
        (option_map_or (I.file_bytes inputs.now) (option_map (λ path. path.now) script.entry)
        (either I.File.remaining S.remaining reader.old.reader)))) }
{
    let mut machine = created?;
    run_script(inputs, &mut machine, script, reader, output)?;
    Ok(())
}

/// Run the program with parsed options. All images are read before the script is opened.
fn run_options<'a, I: Inputs, S: Read + Drop, K: Sink, A: Allocator + Clone>(
    inputs: &I,
    alloc: A,
    options: &Options<'a>,
    reader: &mut ScriptReader<I::File, S>,
    output: &mut K,
) -> Result<(), ProgramFault<'a>>
    ensures ran { OnOk result (RanOptions (I.file_bytes inputs.now) (either I.File.remaining S.remaining reader.old.reader)
        options.now.quantum (option_map (λ path. path.now) options.now.script)
        (texts options.now.images.items) (RanScript (λ printed. K.took output.old printed output.new))) }
    ensures printed { K.took output.old [] output.new
        ⊎ RanOptions (I.file_bytes inputs.now) (either I.File.remaining S.remaining reader.old.reader)
        options.now.quantum (option_map (λ path. path.now) options.now.script)
        (texts options.now.images.items) (OutputPrefix (λ printed. K.took output.old printed output.new)) }
    ensures nothing { IfErr result (λ fault. (program_status fault ≡ 2)
        ⊎ ((program_status fault ≡ 4) ⊎ (program_status fault ≡ 6)) → K.took output.old [] output.new) }
    ensures usage { IfErr result (λ fault.
        program_status fault ≡ 2 → Any LacksEqualsSign (texts options.now.images.items)) }
    ensures refused { Any LacksEqualsSign (texts options.now.images.items) →
        IsErrAnd result (λ fault. (fault ≡ NoMemory) ⊎ (fault ≡ ImageArgument)) }
    ensures images { 1 ≤ options.now.quantum → options.now.quantum ≤ 1000 →
        options.now.images.items ≡ [] → IfErr result (λ fault. program_status fault ≢ 4) }
    ensures failed { IfErr result (λ fault.
        program_status fault ≡ 5 → Rose (K.failures output.old) (K.failures output.new)) }
    ensures unread { IfErr result (λ fault. program_status fault ≡ 3 →
        Rose reader.old.failures reader.new.failures ⊎ IsTooLong (option_map_or (I.file_bytes inputs.now)
        (option_map (λ path. path.now) options.now.script)
        (either I.File.remaining S.remaining reader.old.reader))) }
{
    let paths = image_paths(alloc.clone()?, options.images.as_slice())?;
    let files = read_images(inputs, alloc.clone()?, paths.as_slice())?;
    let images = borrowed_images(alloc.clone()?, files.as_slice())?;
    run_machine(
        inputs,
        Machine::new(alloc, options.quantum, images.as_slice()),
        options.script,
        reader,
        output,
    )
}

/// Run the program with its arguments: write help, or execute a script.
fn run_arguments<'a, R: Inputs, S: Read + Drop, K: Sink>(
    rt: &R,
    alloc: Global,
    arguments: &'a [&'a str],
    reader: &mut ScriptReader<R::File, S>,
    output: &mut K,
) -> Result<(), ProgramFault<'a>>
    ensures ran { OnOk result (
        IsHelped (texts arguments.now) (λ printed. K.took output.old printed output.new)
        ⊎ RanArguments (R.file_bytes rt.now) (either R.File.remaining S.remaining reader.old.reader)
        (texts arguments.now)
        (RanScript (λ printed. K.took output.old printed output.new))) }
    ensures printed { K.took output.old [] output.new
        ⊎ (IsHelped (texts arguments.now) (λ printed. K.took output.old printed output.new)
        ⊎ RanArguments (R.file_bytes rt.now) (either R.File.remaining S.remaining reader.old.reader)
        (texts arguments.now)
        (OutputPrefix (λ printed. K.took output.old printed output.new))) }
    ensures nothing { IfErr result (λ fault. (program_status fault ≡ 2)
        ⊎ ((program_status fault ≡ 4) ⊎ (program_status fault ≡ 6)) → K.took output.old [] output.new) }
    ensures usage { IfErr result (λ fault.
        program_status fault ≡ 2 → MayBeRefused (texts arguments.now)) }
    ensures refused { AreRefused (texts arguments.now) →
        IsErrAnd result (λ fault. (program_status fault ≡ 2) ⊎ (fault ≡ NoMemory)) }
    ensures images { image_arguments (texts arguments.now) ≡ [] →
        IfErr result (λ fault. program_status fault ≢ 4) }
    ensures failed { IfErr result (λ fault.
        program_status fault ≡ 5 → Rose (K.failures output.old) (K.failures output.new)) }
    ensures unread { IfErr result (λ fault. program_status fault ≡ 3 →
        Rose reader.old.failures reader.new.failures ⊎ IsTooLong (option_map_or (R.file_bytes rt.now)
        (script_word (texts arguments.now)) (either R.File.remaining S.remaining reader.old.reader))) }
{
    match options(alloc, arguments) {
        Ok(options) => run_options(rt, alloc, &options, reader, output),
        Err(UsageFault::Help(text)) => match write_text(alloc, output, text) {
            Ok(()) => Ok(()),
            Err(TextFault::Unwritten) => Err(ProgramFault::Run(RunFault::Write)),
            Err(TextFault::NoMemory) => Err(ProgramFault::NoMemory),
        },
        Err(UsageFault::Usage(text)) => Err(ProgramFault::Usage(text)),
        Err(UsageFault::NoMemory) => Err(ProgramFault::NoMemory),
    }
}

/// Print the message of a fault to standard error, and return its exit status.
pub fn report<R: Eprint>(rt: &R, fault: &ProgramFault<'_>) -> u8
    ensures { result ≡ program_status fault.now }
{
    let _ = eprint!(rt; "{fault}");
    fault.status()
}

/// Run the program. `arguments` are the command-line arguments; the first is the program's name. Without the path of a
/// script, `reader` returns the script. The replies to its lines, or the help text, are written to `output`, and error
/// messages are printed to standard error. Return the exit status.
pub fn vecmon_into<R: Inputs + Eprint, S: Read + Drop, K: Sink>(
    rt: &R,
    alloc: Global,
    arguments: &[&str],
    reader: &mut ScriptReader<R::File, S>,
    output: &mut K,
) -> u8
    ensures statuses { (result ≡ 0) ⊎ ((result ≡ 2) ⊎ ((result ≡ 3) ⊎ ((result ≡ 4)
        ⊎ ((result ≡ 5) ⊎ (result ≡ 6))))) }
    // The exit status is 0 if the arguments ask for help, which is then the output, or if the machine that they describe
    // executed the script that they name.
    ensures ran { result ≡ 0 →
        IsHelped (texts arguments.now) (λ printed. K.took output.old printed output.new)
        ⊎ RanArguments (R.file_bytes rt.now) (either R.File.remaining S.remaining reader.old.reader)
        (texts arguments.now)
        (RanScript (λ printed. K.took output.old printed output.new)) }
    // For every exit status, the output is empty, help, or a prefix of the output of this machine for this script. It is
    // empty for the exit statuses 2, 4 and 6.
    ensures printed { K.took output.old [] output.new
        ⊎ (IsHelped (texts arguments.now) (λ printed. K.took output.old printed output.new)
        ⊎ RanArguments (R.file_bytes rt.now) (either R.File.remaining S.remaining reader.old.reader)
        (texts arguments.now)
        (OutputPrefix (λ printed. K.took output.old printed output.new))) }
    ensures nothing { (result ≡ 2) ⊎ ((result ≡ 4) ⊎ (result ≡ 6)) → K.took output.old [] output.new }
    ensures usage { result ≡ 2 → MayBeRefused (texts arguments.now) }
    ensures refused { AreRefused (texts arguments.now) → (result ≡ 2) ⊎ (result ≡ 6) }
    ensures images { image_arguments (texts arguments.now) ≡ [] → result ≢ 4 }
    // The exit status is 5 only if a write to the output failed.
    ensures failed { result ≡ 5 → Rose (K.failures output.old) (K.failures output.new) }
    // The exit status is 3 only if the script couldn't be opened or read, or is too long.
    ensures unread { result ≡ 3 → Rose reader.old.failures reader.new.failures
        ⊎ IsTooLong (option_map_or (R.file_bytes rt.now) (script_word (texts arguments.now))
        (either R.File.remaining S.remaining reader.old.reader)) }
{
    match run_arguments(rt, alloc, arguments, reader, output) {
        Ok(()) => STATUS_DONE,
        Err(fault) => report(rt, &fault),
    }
}

/// Run the program as `vecmon_into` does, with standard input and standard output. The bytes of standard output are
/// unspecified.
pub fn vecmon<R: Inputs + Print + Eprint>(rt: &R, alloc: Global, arguments: &[&str]) -> u8
    ensures statuses { (result ≡ 0) ⊎ ((result ≡ 2) ⊎ ((result ≡ 3) ⊎ ((result ≡ 4)
        ⊎ ((result ≡ 5) ⊎ (result ≡ 6))))) }
    ensures ran { result ≡ 0 → IsAmong DisplayHelp (arguments_fault (texts arguments.now))
        ⊎ RanArguments (R.file_bytes rt.now) (R.input_bytes rt.now) (texts arguments.now) (RanScript (λ _. ⊤)) }
    ensures usage { result ≡ 2 → MayBeRefused (texts arguments.now) }
    ensures refused { AreRefused (texts arguments.now) → (result ≡ 2) ⊎ (result ≡ 6) }
    ensures images { image_arguments (texts arguments.now) ≡ [] → result ≢ 4 }
{
    vecmon_into(
        rt,
        alloc,
        arguments,
        &mut ScriptReader::new(rt.standard_input()),
        &mut WriterSink::new(io::writer(rt)),
    )
}
