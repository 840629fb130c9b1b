//! Log of the instructions that completed: a line for each, in the form of Spike's `--log-commits`.
#![tactic(auto)]

mod changes;
mod laws;
mod lines;
mod log;
mod memory_words;
mod moves;
mod numbers;
mod pre_state;
mod targets;
mod text;

pub use laws::line_laws;
pub use log::{Log, Window};
pub use pre_state::PreState;
pub use text::{LINE_SIZE, TEXT_SIZE, Text};
