//! One vector unit for all users, which changes its owner when another user uses it.
#![tactic(auto)]

mod areas;
mod unit;

pub use areas::Areas;
pub use rv_model::Stats;
pub use unit::Unit;
