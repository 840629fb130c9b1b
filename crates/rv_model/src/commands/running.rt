//! Commands that execute instructions, or print the program's state or output.
use crate::commands::arguments::Count;

/// A command that executes instructions, or prints the program's state or output.
#[derive(Clone, Copy)]
pub enum RunningCommand {
    /// `step N`: execute 1 to 256 instructions.
    Step(Count<256>),
    /// `go`: start the program, which runs in the slices that the operator grants.
    Go,
    /// `stop`: stop the program.
    Stop,
    /// `state`: print whether the user's program is running, and its program counter.
    State,
    /// `trace`: print the addresses of the last 16 instructions that retired.
    Trace,
    /// `out`: print and empty the program's output buffer.
    Out,
}
