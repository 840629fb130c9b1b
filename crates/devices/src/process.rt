//! The command line of a process.
use std::alloc::Global;
use std::env;
use std::io::ErrorKind;
use std::rt::Env;

/// The error of reading the arguments.
#[derive(Clone, Copy, Debug, PartialEq, Eq)]
pub enum ArgumentFault {
    NoMemory,
    /// An argument isn't valid UTF-8.
    NoText,
}

/// Return the arguments of the process; the first is the program's name.
pub fn arguments<R: Env + Alloc<A = Global>>(rt: &R) -> Result<Vec<String>, ArgumentFault> {
    let words = match env::args(rt) {
        Ok(words) => words.collect(rt.alloc()),
        Err(error) if error.kind() == ErrorKind::OutOfMemory => return Err(ArgumentFault::NoMemory),
        Err(_) => return Err(ArgumentFault::NoText),
    };
    match words {
        Ok(words) => Ok(words),
        Err(_) => Err(ArgumentFault::NoMemory),
    }
}
