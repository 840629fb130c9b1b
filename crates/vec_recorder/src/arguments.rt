//! Parsing of the command line.
ghost use Rattle.std.specs.Prelude.{◌≡◌, [], IsOk, IfOk, IfErr};
ghost use Rattle.clap.specs.Walk.{texts};
ghost use Rattle.vec_recorder.specs.CommandLine.{option_arguments, run_arguments, arguments_fault, IsRefusedFor};

use crate::command_line::{Options, UsageFault, command};
use std::alloc::Global;

/// Parse the command-line arguments; the first is the program's name. The options are the values that clap parses for
/// them. Return clap's error as `Help` or `Usage`, or return `NoMemory` if memory runs out.
pub fn options<'a>(alloc: Global, arguments: &'a [&'a str]) -> Result<Options<'a>, UsageFault>
    ensures arguments { IfOk result (λ options. option_arguments options ≡ run_arguments (texts arguments.entry.now)) }
    ensures taken { IsOk result → arguments_fault (texts arguments.entry.now) ≡ [] }
    ensures refused { IfErr result (IsRefusedFor (arguments_fault (texts arguments.entry.now))) }
{
    let matches = command(alloc)?.try_get_matches_from(arguments)?;
    let mut memory = Vec::new(alloc);
    memory.extend_from_slice(matches.get_strs("memory").unwrap_or_default())?;
    let mut watch = Vec::new(alloc);
    watch.extend_from_slice(matches.get_strs("watch").unwrap_or_default())?;
    Ok(Options {
        policy: matches.get_str("policy"),
        ticks: matches.get_str("ticks"),
        memory,
        registers: matches.get_str("registers"),
        counts: matches.get_str("counts"),
        watch,
        changes: matches.get_str("changes"),
        log: matches.get_str("log"),
        from: matches.get_str("from"),
        to: matches.get_str("to"),
        seed: matches.get_str("open"),
        kinds: matches.get_str("kinds"),
        open_from: matches.get_str("open-from"),
        open_to: matches.get_str("open-to"),
        open_elements: matches.get_str("open-elements"),
        chosen: matches.get_str("chosen"),
        image: matches.get_str("image"),
    })
}
