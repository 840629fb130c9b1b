//! Commands of the operator.
use crate::commands::arguments::Count;
use crate::machine::User;

/// A command of the operator, who grants slices to users.
#[derive(Clone, Copy)]
pub enum OperatorCommand {
    /// `slices N`: grant 1 to 1,000 slices in turn to the users with running programs.
    Slices(Count<1000>),
    /// `run U`: grant a slice to this user.
    Run(User),
    /// `list`: print the state of each user's program.
    List,
    /// `stats`: print the numbers of vector-unit switches, and the user whose state the unit holds.
    Stats,
}
