//! Scripts: a machine executes their lines, which it reads from a source, and writes the replies to a sink.
#![tactic(auto)]

mod feed;
mod line;
mod script;

pub use devices::{DeviceFault, ReaderSource, Sink, Source, WriterSink};
pub use script::{RunFault, run};
