//! Reasons for a refusal.
use crate::images::ElfFault;

/// The reason for a refusal, in the order of the tests.
#[derive(Clone, Copy, Debug, PartialEq, Eq)]
pub enum Refusal {
    /// E03: there is no such command.
    UnknownCommand,
    /// E04: the number of arguments is wrong, or an argument has the wrong form or is out of range.
    Argument,
    /// E05: the user hasn't entered.
    NotEntered,
    /// E06: the user has entered already.
    AlreadyEntered,
    /// E07: the user's program is running.
    Running,
    /// E08: there is no image of this name.
    ImageName,
    /// E09: the image has a fault.
    ElfFault(ElfFault),
    /// E10: the user's number of pages would exceed 256.
    Quota,
    /// E11: an address isn't mapped.
    NotMapped,
    /// E12: the user already has 16 breakpoints.
    BreakpointLimit,
    /// E13: the breakpoint to set exists already, or the one to remove doesn't exist.
    Breakpoint,
    /// E14: the user's program isn't running.
    NotRunning,
    /// E15: the text isn't an instruction; the value is the column, from 1, of the first token that doesn't fit.
    Assembler(usize),
    /// E16: a page is mapped already.
    AlreadyMapped,
}
