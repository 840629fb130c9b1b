//! The monitor: the program with its command line, a machine for eight users, and the scripts that it executes.
#![tactic(auto)]

mod arguments;
mod command_line;
mod image_arguments;
mod image_files;
mod program;
mod program_fault;
mod script_reader;

pub use arguments::options;
pub use command_line::{Options, UsageFault};
pub use devices::Inputs;
pub use monitor_machine::{Image, Machine, NewFault};
pub use monitor_script::{DeviceFault, ReaderSource, RunFault, Sink, Source, WriterSink, run};
pub use program::{report, vecmon, vecmon_into};
pub use program_fault::{
    ProgramFault, STATUS_DONE, STATUS_IMAGE, STATUS_NO_MEMORY, STATUS_OUTPUT, STATUS_SCRIPT,
    STATUS_USAGE,
};
pub use rv_model::{
    absent_users_have_nothing, each_user_alone, others_can_be_purged, preserved_configurations,
    refusals_change_nothing, slices_add_up, steps_take_ticks, turns_are_fair,
};
pub use script_reader::ScriptReader;
