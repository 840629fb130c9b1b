//! Parsing of the command line.
ghost use Rattle.std.specs.Prelude.{◌≡◌, ◌≤◌, [], IsOk, IfOk, IfErr, option_map};
ghost use Rattle.clap.specs.Walk.{texts};
ghost use Rattle.vec_monitor.specs.CommandLine.{
  image_arguments,
  quantum_word,
  script_word,
  arguments_fault,
  IsQuantum,
  IsRefusedFor,
};

use crate::command_line::{DEFAULT_QUANTUM, Options, UsageFault, command};
use std::alloc::Global;

/// Parse the command-line arguments; the first is the program's name. The options are the values that clap parses for
/// `--quantum`, SCRIPT and NAME=PATH. Return clap's error as `Help` or `Usage`, or return `NoMemory` if memory runs
/// out.
pub fn options<'a>(alloc: Global, arguments: &'a [&'a str]) -> Result<Options<'a>, UsageFault>
    ensures quantum { IfOk result (λ options.
        IsQuantum (quantum_word (texts arguments.entry.now)) options.quantum) }
    ensures range { IfOk result (λ options. (1 ≤ options.quantum) × (options.quantum ≤ 1000)) }
    ensures script { IfOk result (λ options.
        option_map (λ path. path.now) options.script ≡ script_word (texts arguments.entry.now)) }
    ensures images { IfOk result (λ options.
        texts options.images.items ≡ image_arguments (texts arguments.entry.now)) }
    ensures taken { IsOk result → arguments_fault (texts arguments.entry.now) ≡ [] }
    ensures refused { IfErr result (IsRefusedFor (arguments_fault (texts arguments.entry.now))) }
{
    let matches = command(alloc)?.try_get_matches_from(arguments)?;
    let mut images = Vec::new(alloc);
    images.extend_from_slice(matches.get_strs("image").unwrap_or_default())?;
    Ok(Options {
        quantum: usize::from(matches.get_one("quantum").unwrap_or(DEFAULT_QUANTUM)),
        script: matches.get_str("script"),
        images,
    })
}
