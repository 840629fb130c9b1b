//! The instruction cycle of one user: fetch, decode and execute one instruction.
#![tactic(auto)]

mod control_registers;
mod control_transfer;
mod ending;
mod environment_call;
mod faults;
mod instruction_cycle;
mod loads_and_stores;
mod retirement;
mod scalar_instructions;
mod system_instructions;
mod ticks;
mod vector_instructions;
mod vectors;
mod view;
mod write_call;

pub use ending::{Ending, stop_of};
pub use instruction_cycle::{cycle, fetch, step};
pub use rv_model::StepEnd;
pub use ticks::MAX_TICKS;
pub use vectors::{SingleSlot, Vectors};
pub use view::{StepTerms, View};
