//! The program `vecmon-record`: it runs one user's program on its own machine, and records it.
#![tactic(auto)]

ghost use Rattle.std.specs.Prelude.{◌≡◌, ◌⊎◌};

use devices::{ArgumentFault, arguments};
use std::process::ExitCode;
use vec_recorder::{ProgramFault, record, report};

/// Run the program with the arguments of the process, and return the exit status.
fn run(rt: &HostRuntime) -> u8
    ensures statuses { (result ≡ 0) ⊎ ((result ≡ 2) ⊎ ((result ≡ 4)
        ⊎ ((result ≡ 5) ⊎ (result ≡ 6)))) }
{
    let arguments = match arguments(rt) {
        Ok(arguments) => arguments,
        Err(ArgumentFault::NoMemory) => return report(rt, &ProgramFault::NoMemory),
        Err(ArgumentFault::NoText) => return report(rt, &ProgramFault::NoText),
    };
    let words: Result<Vec<&str>, _> = arguments
        .iter()
        .map(|word| word.as_str())
        .collect(rt.alloc());
    match words {
        Ok(words) => record(rt, rt.alloc(), words.as_slice()),
        Err(_) => report(rt, &ProgramFault::NoMemory),
    }
}

fn main(rt: HostRuntime) -> ExitCode {
    ExitCode::from(run(&rt))
}
