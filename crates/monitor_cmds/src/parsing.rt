//! Parsing of a user's commands.
ghost use Rattle.std.specs.Prelude.{◌≡◌};
ghost use Rattle.rv_model.specs.commands.Commands.{parse, named};
ghost use Rattle.rv_model.specs.text.Words.{words};

use crate::commands::breakpoints::breakpoints_named;
use crate::commands::entering::entering_named;
use crate::commands::memory::memory_named;
use crate::commands::programs::programs_named;
use crate::commands::registers::registers_named;
use crate::commands::running::running_named;
use crate::trimming::after_two_words;
use line_text::Arguments;
use rv_model::{Cmd, Refusal};

/// Return the command with a name, its arguments, and the text after the first argument. Fail as [`parse`] does.
#[tactic(auto, unfolding(rv_model::specs::commands::Commands::named))]
fn named<'a>(name: &[u8], args: &'a [u8], text: &'a [u8]) -> Result<Cmd<'a>, Refusal>
    ensures { result ≡ named name.now (words args.now) text.now }
{
    if let Some(command) = entering_named(name, args) {
        return Ok(Cmd::Entering(command.ok_or(Refusal::Argument)?));
    }
    if let Some(command) = memory_named(name, args) {
        return Ok(Cmd::Memory(command.ok_or(Refusal::Argument)?));
    }
    if let Some(command) = registers_named(name, args) {
        return Ok(Cmd::Registers(command.ok_or(Refusal::Argument)?));
    }
    if let Some(command) = programs_named(name, args, text) {
        return Ok(Cmd::Programs(command.ok_or(Refusal::Argument)?));
    }
    if let Some(command) = breakpoints_named(name, args) {
        return Ok(Cmd::Breakpoints(command.ok_or(Refusal::Argument)?));
    }
    if let Some(command) = running_named(name, args) {
        return Ok(Cmd::Running(command.ok_or(Refusal::Argument)?));
    }
    Err(Refusal::UnknownCommand)
}

/// Parse a user's line, a name and its arguments separated by spaces (byte 0x20). `line` excludes the user's digit and
/// the space after it.
///
/// Return `UnknownCommand` (E03) for an unknown name, else `Argument` (E04) if an argument is missing, superfluous,
/// malformed or out of range.
#[tactic(auto, unfolding(rv_model::specs::commands::Commands::parse))]
pub fn parse(line: &[u8]) -> Result<Cmd<'_>, Refusal>
    ensures { result ≡ parse line.now }
{
    let mut words = Arguments::new(line);
    match words.next_argument() {
        Some(name) => named(name, words.rest(), after_two_words(line)),
        None => Err(Refusal::UnknownCommand),
    }
}
