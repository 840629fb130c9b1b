//! List of the choices of a run: a line for each kind of choice that an instruction takes.
#![tactic(auto)]

mod choice_log;
mod elements;
mod lengths;
mod lines;
mod numbers;

pub use choice_log::ChoiceLog;
