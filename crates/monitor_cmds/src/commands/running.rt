//! The commands that execute instructions, and those that print a program's state and output: `step`, `go`, `stop`,
//! `state`, `trace` and `out`.
ghost use Rattle.std.specs.Prelude.{◌≡◌, [], ◌∷◌, ◌++◌, ◌+◌, ◌*◌, ◌≤◌, length, codes, decimal, nat_lt, if◌then◌else◌};
ghost use Rattle.hex.specs.Hex.{encode_lower};
ghost use Rattle.rv_model.specs.declared.commands.running.RunningCommand.TheVariants.{Step};
ghost use Rattle.rv_model.specs.commands.Arguments.{number_between};
ghost use Rattle.rv_model.specs.commands.Reading.{one_argument};
ghost use Rattle.rv_model.specs.commands.Printing.{hex16};
ghost use Rattle.rv_model.specs.commands.Running.{
  running_named,
  step_line,
  running_line,
  stopped_line,
  state_line,
  trace_line,
  out_line,
};
ghost use Rattle.rv_model.specs.text.Lines.{tagged, text};
ghost use Rattle.rv_model.specs.text.Words.{words};
ghost use Rattle.monitor_cmds.specs.Tag.{tag_byte};

use crate::stops::stop_line;
use crate::tag::Tag;
use line_text::{
    Arguments, Reply, count, done, push_addresses, push_bytes, push_decimal, push_hex16, push_pc,
};
use rv_model::{RunningCommand, Stop};

/// Return the group's command with a name and its arguments: `None` if the group has no command of this name, and
/// `Some(None)` if the arguments are wrong.
pub(crate) fn running_named(name: &[u8], args: &[u8]) -> Option<Option<RunningCommand>>
    ensures { result ≡ running_named name.now (words args.now) }
{
    if name == b"step".as_slice() {
        return Some(step_args(args));
    }
    if name == b"go".as_slice() {
        return Some(done(Arguments::new(args), RunningCommand::Go));
    }
    if name == b"stop".as_slice() {
        return Some(done(Arguments::new(args), RunningCommand::Stop));
    }
    if name == b"state".as_slice() {
        return Some(done(Arguments::new(args), RunningCommand::State));
    }
    if name == b"trace".as_slice() {
        return Some(done(Arguments::new(args), RunningCommand::Trace));
    }
    if name == b"out".as_slice() {
        return Some(done(Arguments::new(args), RunningCommand::Out));
    }
    None
}

/// Parse the argument of `step N`, 1 to 256 instructions.
#[tactic(auto, unfolding(rv_model::specs::commands::Reading::one_argument))]
fn step_args(args: &[u8]) -> Option<RunningCommand>
    ensures { result ≡ one_argument Step (number_between 1 256) (words args.now) }
{
    let mut words = Arguments::new(args);
    let count = count(words.next_argument()?)?;
    done(words, RunningCommand::Step(count))
}

/// Append the number of executed instructions, and the program counter.
fn stepped_line(reply: &mut Reply, tag: Tag, count: usize, pc: u64)
    requires { length reply.old + 51 ≤ 4096 }
    ensures text { reply.new ≡ reply.old
        ++ tagged (tag_byte tag) (codes "stepped " ++ decimal count ++ codes " pc=" ++ hex16 pc) }
    ensures bound { length reply.new ≤ length reply.old + 51 }
{
    reply.push(&[tag.byte(), b' ']);
    reply.push(b"stepped ");
    push_decimal(reply, count as u64);
    push_pc(reply, pc);
    reply.push(b"\n");
}

/// Append the reply to `step N`: the line for N executed instructions, for example
/// `stepped 3 pc=000000000001000c`, or the line for a stop.
#[tactic(auto, unfolding(rv_model::specs::commands::Running::step_line))]
pub fn step_line(reply: &mut Reply, tag: Tag, count: usize, pc: u64, stop: Option<Stop>)
    requires { length reply.old + 80 ≤ 4096 }
    ensures text { reply.new ≡ reply.old ++ text (tag_byte tag) (step_line count pc stop ∷ []) }
    ensures bound { length reply.new ≤ length reply.old + 80 }
{
    match stop {
        None => stepped_line(reply, tag, count, pc),
        Some(stop) => stop_line(reply, tag, pc, stop),
    }
}

/// Append a line with a text and the program counter.
fn pc_line(reply: &mut Reply, tag: Tag, word: &[u8], pc: u64)
    requires { length reply.old + (length word.now + 23) ≤ 4096 }
    ensures text { reply.new ≡ reply.old
        ++ tagged (tag_byte tag) (word.now ++ codes " pc=" ++ hex16 pc) }
    ensures bound { length reply.new ≡ length reply.old + (length word.now + 23) }
{
    reply.push(&[tag.byte(), b' ']);
    reply.push(word);
    push_pc(reply, pc);
    reply.push(b"\n");
}

/// Append the reply to `go`, for example `running pc=0000000000010000`.
#[tactic(auto, unfolding(rv_model::specs::commands::Running::running_line))]
pub fn running_line(reply: &mut Reply, tag: Tag, pc: u64)
    requires { length reply.old + 30 ≤ 4096 }
    ensures text { reply.new ≡ reply.old ++ text (tag_byte tag) (running_line pc ∷ []) }
    ensures bound { length reply.new ≡ length reply.old + 30 }
{
    pc_line(reply, tag, b"running", pc);
}

/// Append the reply to `stop`, for example `stopped pc=0000000000010000`.
#[tactic(auto, unfolding(rv_model::specs::commands::Running::stopped_line))]
pub fn stopped_line(reply: &mut Reply, tag: Tag, pc: u64)
    requires { length reply.old + 30 ≤ 4096 }
    ensures text { reply.new ≡ reply.old ++ text (tag_byte tag) (stopped_line pc ∷ []) }
    ensures bound { length reply.new ≡ length reply.old + 30 }
{
    pc_line(reply, tag, b"stopped", pc);
}

/// Return the start of the reply to `state`.
fn state_prefix(running: bool) -> &'static [u8]
    ensures value { result.now ≡ (if running then codes "state running pc=" else codes "state stopped pc=") }
    ensures len { length result.now ≡ 17 }
{
    if running {
        b"state running pc="
    } else {
        b"state stopped pc="
    }
}

/// Append the reply to `state`, for example `state stopped pc=0000000000010000`.
#[tactic(auto, unfolding(rv_model::specs::commands::Running::state_line))]
pub fn state_line(reply: &mut Reply, tag: Tag, running: bool, pc: u64)
    requires { length reply.old + 36 ≤ 4096 }
    ensures text { reply.new ≡ reply.old ++ text (tag_byte tag) (state_line running pc ∷ []) }
    ensures bound { length reply.new ≡ length reply.old + 36 }
{
    reply.push(&[tag.byte(), b' ']);
    reply.push(state_prefix(running));
    push_hex16(reply, pc);
    reply.push(b"\n");
}

/// Append the reply to `trace`: the addresses of at most 16 instructions, oldest first, given in two slices, for
/// example
/// `trace 0000000000010000 0000000000010004`.
#[tactic(auto, unfolding(rv_model::specs::commands::Running::trace_line), using(crate::proofs::PrintingLaws::joined))]
pub fn trace_line(reply: &mut Reply, tag: Tag, older: &[u64], newer: &[u64])
    requires few { length older.now + length newer.now ≤ 16 }
    requires room { length reply.old + 280 ≤ 4096 }
    ensures text { reply.new ≡ reply.old ++ text (tag_byte tag) (trace_line (older.now ++ newer.now) ∷ []) }
    ensures bound { length reply.new ≤ length reply.old + 280 }
{
    reply.push(&[tag.byte(), b' ']);
    reply.push(b"trace");
    push_addresses(reply, older);
    push_addresses(reply, newer);
    reply.push(b"\n");
}

/// Append a space and the bytes in hexadecimal; append nothing if there are no bytes.
fn push_spaced(reply: &mut Reply, bytes: &[u8])
    requires few { length bytes.now ≤ 1024 }
    requires room { length reply.old + 1 + 2 * length bytes.now ≤ 4096 }
    ensures text { reply.new ≡ reply.old
        ++ (if nat_lt 0 (length bytes.now) then codes " " ++ encode_lower bytes.now else []) }
    ensures bound { length reply.new ≤ length reply.old + 1 + 2 * length bytes.now }
{
    if bytes.is_empty() {
        return;
    }
    reply.push(b" ");
    push_bytes(reply, bytes);
}

/// Append the reply to `out`: the number of bytes that the program has output, at most 1,024, and the bytes in
/// hexadecimal, for example `out 2 00ff`.
#[tactic(auto, unfolding(rv_model::specs::commands::Running::out_line))]
pub fn out_line(reply: &mut Reply, tag: Tag, bytes: &[u8])
    requires few { length bytes.now ≤ 1024 }
    requires room { length reply.old + 2076 ≤ 4096 }
    ensures text { reply.new ≡ reply.old ++ text (tag_byte tag) (out_line bytes.now ∷ []) }
    ensures bound { length reply.new ≤ length reply.old + 2076 }
{
    reply.push(&[tag.byte(), b' ']);
    reply.push(b"out ");
    push_decimal(reply, bytes.len() as u64);
    push_spaced(reply, bytes);
    reply.push(b"\n");
}
