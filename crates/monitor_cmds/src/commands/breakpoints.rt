//! The commands for breakpoints: `break`, `unbreak` and `breaks`.
ghost use Rattle.std.specs.Prelude.{◌≡◌, [], ◌∷◌, ◌++◌, ◌+◌, ◌≤◌, length};
ghost use Rattle.rv_model.specs.declared.commands.breakpoints.BreakpointCommand.TheVariants.{Break, Unbreak};
ghost use Rattle.rv_model.specs.commands.Arguments.{instruction_address};
ghost use Rattle.rv_model.specs.commands.Reading.{one_argument};
ghost use Rattle.rv_model.specs.commands.Breakpoints.{breakpoints_named, breaks_line};
ghost use Rattle.rv_model.specs.text.Lines.{text};
ghost use Rattle.rv_model.specs.text.Words.{words};
ghost use Rattle.monitor_cmds.specs.Tag.{tag_byte};

use crate::tag::Tag;
use line_text::{Arguments, Reply, done, instruction_address, push_addresses};
use rv_model::BreakpointCommand;

/// Return the group's command with a name and its arguments: `None` if the group has no command of this name, and
/// `Some(None)` if the arguments are wrong.
pub(crate) fn breakpoints_named(name: &[u8], args: &[u8]) -> Option<Option<BreakpointCommand>>
    ensures { result ≡ breakpoints_named name.now (words args.now) }
{
    if name == b"break".as_slice() {
        return Some(break_args(args));
    }
    if name == b"unbreak".as_slice() {
        return Some(unbreak_args(args));
    }
    if name == b"breaks".as_slice() {
        return Some(done(Arguments::new(args), BreakpointCommand::Breaks));
    }
    None
}

/// Parse the argument of `break ADDR`.
#[tactic(auto, unfolding(rv_model::specs::commands::Reading::one_argument))]
fn break_args(args: &[u8]) -> Option<BreakpointCommand>
    ensures { result ≡ one_argument Break instruction_address (words args.now) }
{
    let mut words = Arguments::new(args);
    let addr = instruction_address(words.next_argument()?)?;
    done(words, BreakpointCommand::Break(addr))
}

/// Parse the argument of `unbreak ADDR`.
#[tactic(auto, unfolding(rv_model::specs::commands::Reading::one_argument))]
fn unbreak_args(args: &[u8]) -> Option<BreakpointCommand>
    ensures { result ≡ one_argument Unbreak instruction_address (words args.now) }
{
    let mut words = Arguments::new(args);
    let addr = instruction_address(words.next_argument()?)?;
    done(words, BreakpointCommand::Unbreak(addr))
}

/// Append the reply to `breaks`: at most 16 addresses in ascending order, for example
/// `breaks 0000000000010000 0000000000010008`.
#[tactic(auto, unfolding(rv_model::specs::commands::Breakpoints::breaks_line))]
pub fn breaks_line(reply: &mut Reply, tag: Tag, addresses: &[u64])
    requires few { length addresses.now ≤ 16 }
    requires room { length reply.old + 281 ≤ 4096 }
    ensures text { reply.new ≡ reply.old ++ text (tag_byte tag) (breaks_line addresses.now ∷ []) }
    ensures bound { length reply.new ≤ length reply.old + 281 }
{
    reply.push(&[tag.byte(), b' ']);
    reply.push(b"breaks");
    push_addresses(reply, addresses);
    reply.push(b"\n");
}
