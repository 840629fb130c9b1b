//! Input and output of programs: devices for reading and writing bytes, files by path, standard input, and arguments.
#![tactic(auto)]

mod device;
mod inputs;
mod process;
mod reading;
mod streams;
mod writing;

pub use device::{DeviceFault, Sink, Source};
pub use inputs::Inputs;
pub use process::{ArgumentFault, arguments};
pub use reading::{ReadFault, read_file};
pub use streams::{ReaderSource, WriterSink};
pub use writing::{TextFault, write_all, write_text};
