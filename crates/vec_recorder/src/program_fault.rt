//! Faults that end the program before its run ends, with their exit statuses and messages.
ghost use Rattle.std.specs.Prelude.{◌≡◌};
ghost use Rattle.vec_recorder.specs.Statuses.{record_fault, program_status};
ghost use Rattle.vec_recorder.specs.declared.program_fault.ProgramFault.TheVariants.{NoMemory};

use first_state::{LoadFault, PlaceFault, RegistersFault};
use recording::RecordFault;
use std::alloc::{AllocError, AllocFailed};
use thiserror::Error;

/// Exit status after a recorded run, however the recorded program ended, or after help.
pub const STATUS_DONE: u8 = 0;

/// Exit status for invalid arguments.
pub const STATUS_USAGE: u8 = 2;

/// Exit status if the image, a memory file or the register file is unreadable or invalid, or a watched range isn't mapped.
pub const STATUS_INITIAL_STATE: u8 = 4;

/// Exit status if a record or the output can't be written, or the counts need more rows than the table has.
pub const STATUS_WRITE: u8 = 5;

/// Exit status if memory runs out.
pub const STATUS_NO_MEMORY: u8 = 6;

/// A fault of the program. Its `Display` is the message for standard error, including newlines.
#[derive(Debug, Drop, Error)]
pub enum ProgramFault<'a> {
    /// An argument isn't valid UTF-8.
    #[error("error: invalid UTF-8 was detected in one or more arguments\n")]
    NoText,
    /// clap's error for invalid arguments.
    #[error("{0}")]
    Usage(clap::Error),
    /// The value of `--policy` isn't a policy.
    #[error("vecmon-record: --policy needs keep or ones\n")]
    Policy,
    /// The value of `--ticks` isn't a number from 1 to 2^63.
    #[error("vecmon-record: --ticks needs a number from 1 to 9223372036854775808\n")]
    Ticks,
    /// A value of `--memory` isn't an address, permissions and a path.
    #[error("vecmon-record: --memory needs ADDR:PERMS:FILE, not {0}\n")]
    MemoryArgument(&'a str),
    /// A value of `--watch` isn't an address and a length.
    #[error("vecmon-record: --watch needs ADDR:LEN, with LEN from 1 to 256, not {0}\n")]
    WatchArgument(&'a str),
    /// One of `--watch` and `--changes` is given without the other.
    #[error("vecmon-record: --watch and --changes need each other\n")]
    WatchAlone,
    /// The value of `--from` isn't a number from 1 to 2^63.
    #[error("vecmon-record: --from needs a number from 1 to 9223372036854775808\n")]
    From,
    /// The value of `--to` isn't a number from 1 to 2^63.
    #[error("vecmon-record: --to needs a number from 1 to 9223372036854775808\n")]
    To,
    /// The value of `--from` is above that of `--to`.
    #[error("vecmon-record: --from needs a number up to that of --to\n")]
    FromAboveTo,
    /// `--from` or `--to` is given without `--log`.
    #[error("vecmon-record: --from and --to need --log\n")]
    LogAlone,
    /// A log without a limit is written to a file that isn't a device.
    #[error("vecmon-record: --log needs --ticks or --to, unless FILE begins with /dev/\n")]
    LogEnd,
    /// The value of `--open` isn't a number below 2^64.
    #[error("vecmon-record: --open needs a number up to 18446744073709551615\n")]
    Open,
    /// The value of `--kinds` isn't a list of kinds.
    #[error("vecmon-record: --kinds needs kinds with commas between them: tail, masked, trim, length\n")]
    Kinds,
    /// The value of `--open-from` isn't a number from 1 to 2^63.
    #[error("vecmon-record: --open-from needs a number from 1 to 9223372036854775808\n")]
    OpenFrom,
    /// The value of `--open-to` isn't a number from 1 to 2^63.
    #[error("vecmon-record: --open-to needs a number from 1 to 9223372036854775808\n")]
    OpenTo,
    /// The value of `--open-from` is above that of `--open-to`.
    #[error("vecmon-record: --open-from needs a number up to that of --open-to\n")]
    OpenFromAboveTo,
    /// The value of `--open-elements` isn't a range of elements.
    #[error("vecmon-record: --open-elements needs A-B, two numbers from 0 to 255, A up to B\n")]
    OpenElements,
    /// This option is given without `--open`.
    #[error("vecmon-record: {0} needs --open\n")]
    OpenAlone(&'static str),
    /// This option is given with `--open`.
    #[error("vecmon-record: --open can't be combined with {0}\n")]
    OpenWith(&'static str),
    /// Two options name the same output file.
    #[error("vecmon-record: {0} and {1} name the same file; use a different path for each\n")]
    SameOutput(&'static str, &'static str),
    /// An option's output file is also an input; the second field is the input's path.
    #[error("vecmon-record: {0} would overwrite the input {1}; use another path\n")]
    OutputIsInput(&'static str, &'a str),
    /// The file at this path can't be read.
    #[error("vecmon-record: cannot read {0}\n")]
    Read(&'a str),
    /// The file at this path has more bytes than allowed.
    #[error("vecmon-record: {0}: too many bytes\n")]
    TooLong(&'a str),
    /// The image at this path is invalid.
    #[error("vecmon-record: {0}: {1}\n")]
    Image(&'a str, LoadFault),
    /// The memory file at this path can't be written to memory.
    #[error("vecmon-record: {0}: {1}\n")]
    Memory(&'a str, PlaceFault),
    /// The register file at this path is invalid.
    #[error("vecmon-record: {0}: {1}\n")]
    Registers(&'a str, RegistersFault),
    /// A range of `--watch` isn't mapped.
    #[error("vecmon-record: a place of --watch has no memory\n")]
    NoPlace,
    /// A range of `--watch` isn't mapped any more. This never happens because a run doesn't change the mapped pages.
    #[error("vecmon-record: a place of --watch is no longer mapped\n")]
    LostPlace,
    /// The file at this path, or the stream with this name, can't be written.
    #[error("vecmon-record: cannot write {0}\n")]
    Write(&'a str),
    /// Two rows of counts have the same key. This never happens because the table finds the row of a key before it adds one.
    #[error("vecmon-record: two rows of counts have the same key\n")]
    RepeatedRow,
    /// The counts need more rows than the table has.
    #[error("vecmon-record: more than 131072 rows of counts\n")]
    TableFull,
    #[error("vecmon-record: out of memory\n")]
    NoMemory,
}

impl ProgramFault<'_> {
    /// Return the program's exit status for the fault.
    pub fn status(&self) -> u8
        ensures { result ≡ program_status self.now }
    {
        match self {
            ProgramFault::NoText
            | ProgramFault::Usage(_)
            | ProgramFault::Policy
            | ProgramFault::Ticks
            | ProgramFault::MemoryArgument(_)
            | ProgramFault::WatchArgument(_)
            | ProgramFault::WatchAlone
            | ProgramFault::From
            | ProgramFault::To
            | ProgramFault::FromAboveTo
            | ProgramFault::LogAlone
            | ProgramFault::LogEnd
            | ProgramFault::Open
            | ProgramFault::Kinds
            | ProgramFault::OpenFrom
            | ProgramFault::OpenTo
            | ProgramFault::OpenFromAboveTo
            | ProgramFault::OpenElements
            | ProgramFault::OpenAlone(_)
            | ProgramFault::OpenWith(_)
            | ProgramFault::SameOutput(_, _)
            | ProgramFault::OutputIsInput(_, _) => STATUS_USAGE,
            ProgramFault::Read(_)
            | ProgramFault::TooLong(_)
            | ProgramFault::Image(_, _)
            | ProgramFault::Memory(_, _)
            | ProgramFault::Registers(_, _)
            | ProgramFault::NoPlace => STATUS_INITIAL_STATE,
            ProgramFault::LostPlace
            | ProgramFault::RepeatedRow
            | ProgramFault::Write(_)
            | ProgramFault::TableFull => STATUS_WRITE,
            ProgramFault::NoMemory => STATUS_NO_MEMORY,
        }
    }
}

impl From<AllocError> for ProgramFault<'_> {
    ghost from_gives = { λ _ fault. fault ≡ NoMemory };

    fn from(_error: AllocError) -> Self {
        ProgramFault::NoMemory
    }
}

impl<T: Drop> From<AllocFailed<T>> for ProgramFault<'_> {
    ghost from_gives = { λ _ fault. fault ≡ NoMemory };

    fn from(_error: AllocFailed<T>) -> Self {
        ProgramFault::NoMemory
    }
}

impl From<RecordFault> for ProgramFault<'_> {
    ghost from_gives = { λ stopped fault. fault ≡ record_fault stopped };

    fn from(stopped: RecordFault) -> Self {
        match stopped {
            RecordFault::TableFull => ProgramFault::TableFull,
            RecordFault::Unmapped => ProgramFault::LostPlace,
            RecordFault::Write(name) => ProgramFault::Write(name),
        }
    }
}
