//! Tests devices in memory: a writer and a reader whose first call fails, scripts whose output goes out in pieces or whose
//! devices fail, and a run of the recorder whose inputs and files have known bytes. A line for each kind has the number
//! of runs, and the number of wrong runs.
#![tactic(auto)]

mod adapters;
mod memory_files;
mod memory_inputs;
mod pieces;
mod records;
mod scripts;

use std::io;
use vec_monitor::Machine;

/// Ticks in a time slice.
const QUANTUM: usize = 100;

/// The number of runs, and of wrong runs.
fn print_tally(rt: &HostRuntime, kind: &str, results: &[bool]) -> io::Result<()> {
    let mut wrong: usize = 0;
    for is_right in results {
        if !*is_right {
            wrong = wrong.wrapping_add(1);
        }
    }
    println!(rt; "{kind}: {} runs, {wrong} differ", results.len())
}

/// Run scripts with small and failing writes and with failing reads, all on one machine.
fn print_scripts(rt: &HostRuntime) -> io::Result<()> {
    let alloc = rt.alloc();
    let Ok(mut machine) = Machine::new(alloc, QUANTUM, &[]) else {
        return Err(io::Error::other("no memory for the machine"));
    };
    let small = scripts::small_writes(alloc, &mut machine)?;
    print_tally(rt, "scripts with small writes", small.as_slice())?;
    let writes = scripts::failing_writes(alloc, &mut machine)?;
    print_tally(rt, "scripts with a failing write", writes.as_slice())?;
    let reads = scripts::failing_reads(alloc, &mut machine)?;
    print_tally(rt, "scripts with a failing read", reads.as_slice())
}

fn main(rt: HostRuntime) -> io::Result<()> {
    print_tally(
        &rt,
        "adapters of which the first call fails",
        &adapters::first_calls(),
    )?;
    print_scripts(&rt)?;
    print_tally(&rt, "records in memory", &records::runs(rt.alloc()))
}
