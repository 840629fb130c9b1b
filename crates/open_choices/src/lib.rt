//! The choices that the standard leaves to an implementation, made after a step.
#![tactic(auto)]

mod choices;
mod laws;
mod lengths;
mod open_group;
mod overlay;
mod seeds;

pub use choices::Choices;
pub use laws::{open_steps, overlays_are_open, seeds_are_open};
pub use lengths::{asked_length, choose_length, choose_trim};
pub use open_group::{OpenGroup, operation_group};
pub use overlay::choose_ones;
pub use seeds::{Kinds, Seed, SeedChoices};
