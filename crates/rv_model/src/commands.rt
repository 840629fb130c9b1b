//! Commands of users, by subject; commands of the operator; and the reasons for a refusal.
mod arguments;
mod breakpoints;
mod command;
mod entering;
mod memory;
mod operator;
mod programs;
mod refusal;
mod registers;
mod running;

pub use arguments::{ByteString, Count, LinePart, PageRange};
pub use breakpoints::BreakpointCommand;
pub use command::Cmd;
pub use entering::EnteringCommand;
pub use memory::MemoryCommand;
pub use operator::OperatorCommand;
pub use programs::ProgramCommand;
pub use refusal::Refusal;
pub use registers::RegisterCommand;
pub use running::RunningCommand;
