//! All commands of a user.
use crate::commands::breakpoints::BreakpointCommand;
use crate::commands::entering::EnteringCommand;
use crate::commands::memory::MemoryCommand;
use crate::commands::programs::ProgramCommand;
use crate::commands::registers::RegisterCommand;
use crate::commands::running::RunningCommand;

/// A user's command with its arguments. It borrows names and texts from the command's line.
#[derive(Drop)]
pub enum Cmd<'a> {
    /// A command that creates or removes the user's machine.
    Entering(EnteringCommand),
    /// A command on the user's memory.
    Memory(MemoryCommand),
    /// A command on the user's registers.
    Registers(RegisterCommand),
    /// A command on programs in memory.
    Programs(ProgramCommand<'a>),
    /// A command on the user's breakpoints.
    Breakpoints(BreakpointCommand),
    /// A command that executes instructions, or prints the program's state or output.
    Running(RunningCommand),
}
