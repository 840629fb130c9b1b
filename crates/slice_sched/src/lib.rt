//! Round-robin order of the users' slices.
#![tactic(auto)]

mod turns;

pub use turns::next;
