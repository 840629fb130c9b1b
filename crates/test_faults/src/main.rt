//! Tests faults that can only be caused inside a process: memory refused during the creation of a machine and after it,
//! and failed reads of a file. A line for each kind has the number of runs, and the number of wrong runs.
//!
//! The contract of `run` covers failed reads and writes, and scripts that are too long. Tests of the program from outside
//! (`tests/command_lines`) cover the greatest lengths, full outputs, and arguments.
#![tactic(auto)]

mod commands;
mod growths;
mod reads;
mod tally;

use anyhow::Result;
use commands::compared_answers;
use tally::Tally;

/// Prints the line of a kind.
fn print_tally(rt: &HostRuntime, kind: &str, tally: Tally) -> Result<()> {
    println!(rt; "{kind}: {} runs, {} differ", tally.runs, tally.differ)?;
    Ok(())
}

/// Prints the lines for too little memory.
fn print_memory(rt: &HostRuntime) -> Result<()> {
    let alloc = rt.alloc();
    print_tally(rt, "pools with too little memory", growths::pools(alloc)?)?;
    print_tally(
        rt,
        "machines with too little memory",
        growths::machines(alloc)?,
    )?;
    let answers = compared_answers(rt)?;
    println!(rt;
        "commands without memory: {} lines, {} instructions by themselves, {} differ",
        answers.lines, answers.stepped, answers.differ
    )?;
    Ok(())
}

fn main(rt: HostRuntime) -> Result<()> {
    print_memory(&rt)?;
    print_tally(
        &rt,
        "reads of which one fails",
        reads::failed_reads(rt.alloc())?,
    )
}
