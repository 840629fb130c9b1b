//! The command-line options.
ghost use Rattle.std.specs.Prelude.{◌≡◌, IfOk, false};
ghost use Rattle.clap.specs.Words.{app_of, kind_of, rule_of};
ghost use Rattle.vec_recorder.specs.CommandLine.{command_line, image_rule, option_rule, repeated_rule, IsFaultOf};
ghost use Rattle.vec_recorder.specs.declared.command_line.UsageFault.TheVariants.{NoMemory};

use clap::error::ErrorKind;
use clap::{Arg, ArgAction, Command};
use std::alloc::{AllocError, Global};
use std::fmt;

/// The help text after the options.
const AFTER_HELP: &str = "\
The program runs until it exits, stops, faults or has used its ticks. Its output goes to standard
output. FILE may be /dev/fd/N. For the formats of the files, see `man vecmon-record` or
docs/RECORDER.md (in a package: share/doc/vecmon/docs/RECORDER.md).

Example: list the ten instructions with the most ticks
  vecmon-record --counts counts image.elf && sort -n -r -k 5 counts | head";

// The help text of each option.
const POLICY_HELP: &str = "Keep agnostic elements, or fill them with ones [default: keep]";

const TICKS_HELP: &str = "Stop after N ticks, 1 to 2^63 [default: 2^63]";

const MEMORY_HELP: &str = "Map missing pages with PERMS, and write FILE to memory at ADDR";

const REGISTERS_HELP: &str = "Read initial register values from FILE, one per line";

const COUNTS_HELP: &str = "Write the number of times that each instruction executed to FILE";

const WATCH_HELP: &str = "Watch LEN bytes at ADDR, 1 to 256, for changes";

const CHANGES_HELP: &str = "Write each change of watched bytes, with its instruction, to FILE";

const LOG_HELP: &str = "Write a line for each executed instruction to FILE";

const FROM_HELP: &str = "The first instruction in the log, 1 to 2^63 [default: 1]";

const TO_HELP: &str = "The last instruction in the log, 1 to 2^63 [default: 2^63]";

const OPEN_HELP: &str = "Make the choices that the standard leaves open by a seed, 0 to 2^64 - 1";

const KINDS_HELP: &str = "Choose only these kinds: tail, masked, trim, length [default: all]";

const OPEN_FROM_HELP: &str = "The first instruction with choices, 1 to 2^63 [default: 1]";

const OPEN_TO_HELP: &str = "The last instruction with choices, 1 to 2^63 [default: 2^63]";

const OPEN_ELEMENTS_HELP: &str = "Choose only elements A to B, 0 to 255 [default: all]";

const CHOSEN_HELP: &str = "Write the choices of each instruction to FILE";

/// The values of the options, as text.
#[derive(Debug, Drop)]
pub struct Options<'a> {
    /// The value written to agnostic elements.
    pub policy: Option<&'a str>,
    /// The maximum number of ticks.
    pub ticks: Option<&'a str>,
    /// The values of `--memory`, in order.
    pub memory: Vec<&'a str>,
    /// The path of the register file.
    pub registers: Option<&'a str>,
    /// The path of the counts file.
    pub counts: Option<&'a str>,
    /// The values of `--watch`, in order.
    pub watch: Vec<&'a str>,
    /// The path of the changes file.
    pub changes: Option<&'a str>,
    /// The path of the log file.
    pub log: Option<&'a str>,
    /// The number of the first instruction in the log, counted from 1.
    pub from: Option<&'a str>,
    /// The number of the last instruction in the log.
    pub to: Option<&'a str>,
    /// The seed of open choices.
    pub seed: Option<&'a str>,
    /// The kinds of choices.
    pub kinds: Option<&'a str>,
    /// The number of the first instruction with choices, counted from 1.
    pub open_from: Option<&'a str>,
    /// The number of the last instruction with choices.
    pub open_to: Option<&'a str>,
    /// The elements that may be chosen.
    pub open_elements: Option<&'a str>,
    /// The path of the file of choices.
    pub chosen: Option<&'a str>,
    /// The path of the image.
    pub image: Option<&'a str>,
}

/// The reason why parsing returned no options. Its `Display` is clap's text, which ends with a newline.
#[derive(Debug, Drop)]
pub enum UsageFault {
    /// The arguments ask for help.
    Help(clap::Error),
    /// The arguments are invalid.
    Usage(clap::Error),
    NoMemory,
}

impl From<AllocError> for UsageFault {
    ghost from_gives = { λ _ fault. fault ≡ NoMemory };

    fn from(_error: AllocError) -> UsageFault {
        UsageFault::NoMemory
    }
}

impl From<clap::Error> for UsageFault {
    ghost from_gives = { λ error fault. IsFaultOf (kind_of error) fault };

    fn from(error: clap::Error) -> UsageFault {
        match error.kind() {
            ErrorKind::DisplayHelp => UsageFault::Help(error),
            ErrorKind::OutOfMemory => UsageFault::NoMemory,
            _ => UsageFault::Usage(error),
        }
    }
}

/// Return an option with a value.
fn option<'a>(alloc: Global, name: &'a str, value: &'a str, help: &'a str) -> Arg<'a>
    ensures rule { rule_of result ≡ option_rule name.now }
    ensures local { result.global ≡ false }
{
    Arg::new(alloc, name)
        .long(name)
        .value_name(value)
        .help(help)
}

/// Return an option with a value that may be repeated.
fn repeated<'a>(alloc: Global, name: &'a str, value: &'a str, help: &'a str) -> Arg<'a>
    ensures rule { rule_of result ≡ repeated_rule name.now }
    ensures local { result.global ≡ false }
{
    option(alloc, name, value, help).action(ArgAction::Append)
}

/// Return the argument `[IMAGE]`.
fn image<'a>(alloc: Global) -> Arg<'a>
    ensures rule { rule_of result ≡ image_rule }
    ensures local { result.global ≡ false }
{
    Arg::new(alloc, "image")
        .value_name("IMAGE")
        .help("The ELF file to run; without it, the machine is empty")
}

/// Return clap's description of the command line. It fails if memory runs out.
pub fn command<'a>(alloc: Global) -> Result<Command<'a>, AllocError>
    ensures { IfOk result (λ command. app_of command ≡ command_line) }
{
    Command::new(alloc, "vecmon-record")
        .about("Runs one program on vecmon's machine and records its execution")
        .after_help(AFTER_HELP)
        .arg(option(alloc, "policy", "keep|ones", POLICY_HELP))?
        .arg(option(alloc, "ticks", "N", TICKS_HELP))?
        .arg(repeated(alloc, "memory", "ADDR:PERMS:FILE", MEMORY_HELP))?
        .arg(option(alloc, "registers", "FILE", REGISTERS_HELP))?
        .arg(option(alloc, "counts", "FILE", COUNTS_HELP))?
        .arg(repeated(alloc, "watch", "ADDR:LEN", WATCH_HELP))?
        .arg(option(alloc, "changes", "FILE", CHANGES_HELP))?
        .arg(option(alloc, "log", "FILE", LOG_HELP))?
        .arg(option(alloc, "from", "N", FROM_HELP))?
        .arg(option(alloc, "to", "N", TO_HELP))?
        .arg(option(alloc, "open", "SEED", OPEN_HELP))?
        .arg(option(alloc, "kinds", "KIND,...", KINDS_HELP))?
        .arg(option(alloc, "open-from", "N", OPEN_FROM_HELP))?
        .arg(option(alloc, "open-to", "N", OPEN_TO_HELP))?
        .arg(option(alloc, "open-elements", "A-B", OPEN_ELEMENTS_HELP))?
        .arg(option(alloc, "chosen", "FILE", CHOSEN_HELP))?
        .arg(image(alloc))
}
