//! The state of a user's program, as the operator sees it.

/// State of a user's program.
#[derive(Clone, Copy, Debug, PartialEq, Eq)]
pub enum RunState {
    /// The user has not entered.
    Absent,
    /// The program is stopped.
    Stopped,
    /// The program is running.
    Running,
}
