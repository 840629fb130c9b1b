//! Faults that end the program before its script ends, with their exit statuses and messages.
ghost use Rattle.std.specs.Prelude.{◌≡◌};
ghost use Rattle.vec_monitor.specs.Statuses.{machine_fault, program_status};
ghost use Rattle.vec_monitor.specs.declared.program_fault.ProgramFault.TheVariants.{NoMemory, Run};

use monitor_machine::NewFault;
use monitor_script::RunFault;
use std::alloc::{AllocError, AllocFailed};
use thiserror::Error;

/// Exit status after a whole script or after help.
pub const STATUS_DONE: u8 = 0;

/// Exit status for invalid arguments.
pub const STATUS_USAGE: u8 = 2;

/// Exit status if the script can't be read or is too long.
pub const STATUS_SCRIPT: u8 = 3;

/// Exit status if an image can't be read, or the machine refuses the images.
pub const STATUS_IMAGE: u8 = 4;

/// Exit status if the output can't be written.
pub const STATUS_OUTPUT: u8 = 5;

/// Exit status if memory runs out.
pub const STATUS_NO_MEMORY: u8 = 6;

/// A fault of the program. Its `Display` is the message for standard error, including newlines.
#[derive(Debug, Drop, Error)]
pub enum ProgramFault<'a> {
    /// An argument isn't valid UTF-8.
    #[error("error: invalid UTF-8 was detected in one or more arguments\n")]
    NoText,
    /// clap's error for invalid arguments.
    #[error("{0}")]
    Usage(clap::Error),
    /// An image argument without `=`.
    #[error("vecmon: image argument needs NAME=PATH\n")]
    ImageArgument,
    /// The file of the image with this name can't be read.
    #[error("vecmon: cannot read image {0}\n")]
    ImageRead(&'a str),
    /// The machine refuses the images.
    #[error("vecmon: bad image list\n")]
    ImageList,
    /// The script can't be read or is too long, or the output can't be written.
    #[error("vecmon: {0}\n")]
    Run(RunFault),
    #[error("vecmon: out of memory\n")]
    NoMemory,
}

impl ProgramFault<'_> {
    /// Return the program's exit status for the fault.
    pub fn status(&self) -> u8
        ensures { result ≡ program_status self.now }
    {
        match self {
            ProgramFault::NoText | ProgramFault::Usage(_) | ProgramFault::ImageArgument =>
                STATUS_USAGE,
            ProgramFault::ImageRead(_) | ProgramFault::ImageList => STATUS_IMAGE,
            ProgramFault::Run(RunFault::Read | RunFault::TooLong) => STATUS_SCRIPT,
            ProgramFault::Run(RunFault::Write) => STATUS_OUTPUT,
            ProgramFault::NoMemory => STATUS_NO_MEMORY,
        }
    }
}

impl From<AllocError> for ProgramFault<'_> {
    ghost from_gives = { λ _ fault. fault ≡ NoMemory };

    fn from(_error: AllocError) -> Self {
        ProgramFault::NoMemory
    }
}

impl<T: Drop> From<AllocFailed<T>> for ProgramFault<'_> {
    ghost from_gives = { λ _ fault. fault ≡ NoMemory };

    fn from(_error: AllocFailed<T>) -> Self {
        ProgramFault::NoMemory
    }
}

impl From<NewFault> for ProgramFault<'_> {
    ghost from_gives = { λ refused fault. fault ≡ machine_fault refused };

    fn from(refused: NewFault) -> Self {
        match refused {
            NewFault::NoMemory => ProgramFault::NoMemory,
            _ => ProgramFault::ImageList,
        }
    }
}

impl From<RunFault> for ProgramFault<'_> {
    ghost from_gives = { λ stopped fault. fault ≡ Run stopped };

    fn from(stopped: RunFault) -> Self {
        ProgramFault::Run(stopped)
    }
}
