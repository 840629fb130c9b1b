//! Command-line arguments and options.
ghost use Rattle.std.specs.Prelude.{◌≡◌, IfOk, false};
ghost use Rattle.clap.specs.Words.{app_of, kind_of, rule_of};
ghost use Rattle.vec_monitor.specs.CommandLine.{command_line, image_rule, quantum_rule, script_rule, IsFaultOf};
ghost use Rattle.vec_monitor.specs.declared.command_line.UsageFault.TheVariants.{NoMemory};

use clap::error::ErrorKind;
use clap::{Arg, ArgAction, Command, value_parser};
use std::alloc::{AllocError, Global};
use std::fmt;

/// The default ticks of a slice.
pub const DEFAULT_QUANTUM: u16 = 100;

/// The text after the options in the output of `--help`.
const AFTER_HELP: &str = "\
Each line of a script is the digit of a user, 1 to 8, a space, and a command:
  enter  leave  load  map  poke  peek  set  regs  setpc  vreg  vset  vcsr  policy
  asm  dis  break  unbreak  breaks  step  go  stop  state  out  trace
The operator's lines start with a star and a space: slices  run  list  stats
See `man vecmon-commands` for each command and its output, or docs/COMMANDS.md in the
repository, or share/doc/vecmon/docs/COMMANDS.md in a package.

Example: a program of one instruction
  1 enter
  1 map 0 1 rwx
  1 asm 0 addi x5, x0, 7
  1 step 1";

/// The parsed options of the command line.
#[derive(Debug, Drop)]
pub struct Options<'a> {
    /// The ticks of a slice, 1 to 1,000.
    pub quantum: usize,
    /// The path of the script, or `None` for standard input.
    pub script: Option<&'a str>,
    /// The image arguments, each `NAME=PATH`, in their order.
    pub images: Vec<&'a str>,
}

/// The reason why parsing returned no options. Its `Display` is clap's text, which ends with a newline.
#[derive(Debug, Drop)]
pub enum UsageFault {
    /// The arguments ask for help.
    Help(clap::Error),
    /// The arguments are invalid.
    Usage(clap::Error),
    NoMemory,
}

impl From<AllocError> for UsageFault {
    ghost from_gives = { λ _ fault. fault ≡ NoMemory };

    fn from(_error: AllocError) -> UsageFault {
        UsageFault::NoMemory
    }
}

impl From<clap::Error> for UsageFault {
    ghost from_gives = { λ error fault. IsFaultOf (kind_of error) fault };

    fn from(error: clap::Error) -> UsageFault {
        match error.kind() {
            ErrorKind::DisplayHelp => UsageFault::Help(error),
            ErrorKind::OutOfMemory => UsageFault::NoMemory,
            _ => UsageFault::Usage(error),
        }
    }
}

impl fmt::Display for UsageFault {
    fn fmt<W: fmt::Write>(&self, f: &mut fmt::Formatter<W>) -> fmt::Result {
        match self {
            UsageFault::Help(error) => write!(f, "{error}"),
            UsageFault::Usage(error) => write!(f, "{error}"),
            UsageFault::NoMemory => f.write_str("out of memory\n"),
        }
    }
}

/// Return the option `--quantum N`.
fn quantum<'a>(alloc: Global) -> Arg<'a>
    ensures rule { rule_of result ≡ quantum_rule }
    ensures local { result.global ≡ false }
{
    Arg::new(alloc, "quantum")
        .long("quantum")
        .value_name("N")
        .value_parser(value_parser!(u16).range(1..=1000))
        .help("Ticks of a slice, 1 to 1000 [default: 100]")
}

/// Return the argument `[SCRIPT]`.
fn script<'a>(alloc: Global) -> Arg<'a>
    ensures rule { rule_of result ≡ script_rule }
    ensures local { result.global ≡ false }
{
    Arg::new(alloc, "script")
        .value_name("SCRIPT")
        .help("Path of the script; without it, standard input is read")
}

/// Return the arguments `[NAME=PATH]...`.
fn image<'a>(alloc: Global) -> Arg<'a>
    ensures rule { rule_of result ≡ image_rule }
    ensures local { result.global ≡ false }
{
    Arg::new(alloc, "image")
        .value_name("NAME=PATH")
        .action(ArgAction::Append)
        .help("ELF file at PATH, which users load as NAME")
}

/// Return clap's description of the command line. It fails if memory runs out.
pub fn command<'a>(alloc: Global) -> Result<Command<'a>, AllocError>
    ensures { IfOk result (λ command. app_of command ≡ command_line) }
{
    Command::new(alloc, "vecmon")
        .about(
            "Runs a script on a trainer machine for the RISC-V vector extension, with eight users",
        )
        .after_help(AFTER_HELP)
        .arg(quantum(alloc))?
        .arg(script(alloc))?
        .arg(image(alloc))
}
