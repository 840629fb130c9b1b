//! Statistics of the vector unit, as the operator sees them.
use crate::machine::User;

/// Numbers of vector states saved, restored and used for the first time, and the user whose state the vector unit
/// holds. The counts saturate at 2^64 - 1.
#[derive(Clone, Copy)]
pub struct Stats {
    pub saves: u64,
    pub restores: u64,
    pub inits: u64,
    pub owner: Option<User>,
}
