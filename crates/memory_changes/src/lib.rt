//! Watched places in the memory of a running machine, and lines of their changes.
#![tactic(auto)]

mod changes;
mod laws;
mod lines;
mod place;
mod reading;

pub use changes::{Changes, WatchedPlaces};
pub use laws::lines_of_each;
pub use place::{MAX_LENGTH, Place};
pub use reading::has_memory;
