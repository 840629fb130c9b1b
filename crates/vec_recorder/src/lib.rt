//! The recorder: the program with its command line, and a machine that runs one user's program and records it.
#![tactic(auto)]

mod arguments;
mod command_line;
mod initial_machine;
mod log_arguments;
mod memory_arguments;
mod numbers;
mod open_arguments;
mod outputs;
mod paths;
mod program;
mod program_fault;
mod record_file;
mod record_lines;
mod runs;
mod same_files;
mod watch_arguments;

pub use arguments::options;
pub use command_line::{Options, UsageFault};
pub use outputs::{Outputs, ProcessFiles};
pub use program::{record, record_into, report};
pub use program_fault::{
    ProgramFault, STATUS_DONE, STATUS_INITIAL_STATE, STATUS_NO_MEMORY, STATUS_USAGE, STATUS_WRITE,
};
pub use record_file::RecordFile;
