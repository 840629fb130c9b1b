//! The paths of a run: all output files differ, and no output file is an input.
ghost use Rattle.std.specs.Prelude.{◌≡◌, ◌⊎◌, IfErr, IfOk, IsFalse, IsOk, option_map};
ghost use Rattle.vec_recorder.specs.CommandLine.{option_arguments};
ghost use Rattle.vec_recorder.specs.Paths.{ArePathsApart, Differ, IsNoInput};
ghost use Rattle.vec_recorder.specs.Statuses.{program_status};

use crate::command_line::Options;
use crate::memory_arguments::MemoryPath;
use crate::outputs::Outputs;
use crate::program_fault::ProgramFault;
use std::alloc::{AllocError, Global};

/// Return whether two paths are given and name the same file: they are equal, or `files` finds that they do. Fails if
/// memory runs out.
fn are_same<F: Outputs>(
    files: &F,
    alloc: Global,
    first: Option<&str>,
    second: Option<&str>,
) -> Result<bool, AllocError>
    ensures { IfOk result (λ same. IsFalse same → Differ (option_map (λ path. path.now) first.entry)
        (option_map (λ path. path.now) second.entry)) }
{
    let Some(first) = first else {
        return Ok(false);
    };
    let Some(second) = second else {
        return Ok(false);
    };
    if first == second {
        return Ok(true);
    }
    files.is_same_file(alloc, first, second)
}

/// Check that all output files differ. Return `SameOutput` otherwise, or `NoMemory`.
fn check_outputs<'a, F: Outputs>(
    files: &F,
    alloc: Global,
    options: &Options<'a>,
) -> Result<(), ProgramFault<'a>>
    ensures changes { IsOk result → Differ (option_arguments options.now).counts (option_arguments options.now).changes }
    ensures log { IsOk result → Differ (option_arguments options.now).counts (option_arguments options.now).log }
    ensures both { IsOk result → Differ (option_arguments options.now).changes (option_arguments options.now).log }
    ensures chosen { IsOk result → Differ (option_arguments options.now).log (option_arguments options.now).chosen }
    ensures refused { IfErr result (λ fault. (program_status fault ≡ 2) ⊎ (program_status fault ≡ 6)) }
{
    if are_same(files, alloc, options.counts, options.changes)? {
        return Err(ProgramFault::SameOutput("--counts", "--changes"));
    }
    if are_same(files, alloc, options.counts, options.log)? {
        return Err(ProgramFault::SameOutput("--counts", "--log"));
    }
    if are_same(files, alloc, options.changes, options.log)? {
        return Err(ProgramFault::SameOutput("--changes", "--log"));
    }
    if are_same(files, alloc, options.log, options.chosen)? {
        return Err(ProgramFault::SameOutput("--log", "--chosen"));
    }
    Ok(())
}

/// Check that an option's output file isn't this input. Return `OutputIsInput` otherwise, or `NoMemory`.
fn check_input<'a, F: Outputs>(
    files: &F,
    alloc: Global,
    option: &'static str,
    output: Option<&'a str>,
    input: Option<&'a str>,
) -> Result<(), ProgramFault<'a>>
    ensures apart { IsOk result → Differ (option_map (λ path. path.now) output.entry)
        (option_map (λ path. path.now) input.entry) }
    ensures refused { IfErr result (λ fault. (program_status fault ≡ 2) ⊎ (program_status fault ≡ 6)) }
{
    let Some(path) = input else {
        return Ok(());
    };
    if are_same(files, alloc, output, input)? {
        return Err(ProgramFault::OutputIsInput(option, path));
    }
    Ok(())
}

/// Check that an option's output file is neither the image nor a register or memory file. Return `OutputIsInput`
/// otherwise, or `NoMemory`.
fn check_inputs<'a, F: Outputs>(
    files: &F,
    alloc: Global,
    option: &'static str,
    output: Option<&'a str>,
    options: &Options<'a>,
    memories: &[MemoryPath<'a>],
) -> Result<(), ProgramFault<'a>>
    ensures apart { IsOk result → IsNoInput (option_arguments options.now) memories.now
        (option_map (λ path. path.now) output.entry) }
    ensures refused { IfErr result (λ fault. (program_status fault ≡ 2) ⊎ (program_status fault ≡ 6)) }
{
    check_input(files, alloc, option, output, options.image)?;
    check_input(files, alloc, option, output, options.registers)?;
    for memory in memories {
        check_input(files, alloc, option, output, Some(memory.path))?;
    }
    Ok(())
}

/// Check that all output files differ, and that none is an input. No file is opened.
pub(crate) fn check_paths<'a, F: Outputs>(
    files: &F,
    alloc: Global,
    options: &Options<'a>,
    memories: &[MemoryPath<'a>],
) -> Result<(), ProgramFault<'a>>
    ensures apart { IsOk result → ArePathsApart (option_arguments options.now) memories.now }
    ensures refused { IfErr result (λ fault. (program_status fault ≡ 2) ⊎ (program_status fault ≡ 6)) }
{
    check_outputs(files, alloc, options)?;
    check_inputs(files, alloc, "--counts", options.counts, options, memories)?;
    check_inputs(
        files,
        alloc,
        "--changes",
        options.changes,
        options,
        memories,
    )?;
    check_inputs(files, alloc, "--log", options.log, options, memories)?;
    check_inputs(files, alloc, "--chosen", options.chosen, options, memories)
}
