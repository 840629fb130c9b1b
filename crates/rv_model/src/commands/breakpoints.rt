//! Commands on breakpoints.

/// A command on a user's breakpoints.
#[derive(Clone, Copy)]
pub enum BreakpointCommand {
    /// `break ADDR`: set a breakpoint at this address; the program stops before it executes the instruction there.
    Break(u64),
    /// `unbreak ADDR`: remove the breakpoint at this address.
    Unbreak(u64),
    /// `breaks`: print the addresses of all breakpoints.
    Breaks,
}
