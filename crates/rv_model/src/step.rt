//! How instructions end, and laws about steps.
mod byte_laws;
mod laws;
mod memory_end;
mod output;
mod step_end;
mod vector_end;

pub use byte_laws::bytes_of_transfers;
pub use laws::{
    instructions_resume, legal_instructions_execute, loads_and_stores_resume, steps_keep_others,
    steps_take_ticks, steps_write_one_register, ticks_and_cuts,
};
pub use memory_end::MemEnd;
pub use output::{OUTPUT_SIZE, WRITE_SIZE};
pub use step_end::{Cause, StepEnd, Stop};
pub use vector_end::VEnd;
