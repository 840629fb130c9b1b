//! Commands that create and remove a user's machine.

/// A command that creates or removes the user's machine.
#[derive(Clone, Copy)]
pub enum EnteringCommand {
    /// `enter`: create the user's machine.
    Enter,
    /// `leave`: remove the user's machine, with all that belongs to it; the user is absent.
    Leave,
}
