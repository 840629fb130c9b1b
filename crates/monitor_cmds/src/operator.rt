//! The commands of the operator: `slices`, `run`, `list` and `stats`.
ghost use Rattle.std.specs.Prelude.{◌≡◌, [], ◌∷◌, ◌++◌, ◌+◌, ◌≤◌, length, flat_map, unwrap_or};
ghost use Rattle.rv_model.specs.declared.commands.operator.OperatorCommand.TheVariants.{Slices, Run};
ghost use Rattle.rv_model.specs.commands.Arguments.{number_between};
ghost use Rattle.rv_model.specs.commands.Reading.{one_argument};
ghost use Rattle.rv_model.specs.commands.Operator.{
  operator_named,
  operator_parse,
  granted_line,
  run_state_word,
  listed_user,
  list_line,
  stats_line,
};
ghost use Rattle.rv_model.specs.machine.Setup.{user_count, users};
ghost use Rattle.rv_model.specs.text.Lines.{text};
ghost use Rattle.rv_model.specs.text.Words.{words};

use line_text::{Arguments, Reply, count, done, push_decimal, user};
use rv_model::{OperatorCommand, Refusal, RunState, Stats, USER_COUNT, User};

/// Return the command with a name and its arguments: `None` if the name is unknown, and `Some(None)` if the arguments
/// are wrong.
fn operator_named(name: &[u8], args: &[u8]) -> Option<Option<OperatorCommand>>
    ensures { result ≡ operator_named name.now (words args.now) }
{
    if name == b"slices".as_slice() {
        return Some(slices_args(args));
    }
    if name == b"run".as_slice() {
        return Some(run_args(args));
    }
    if name == b"list".as_slice() {
        return Some(done(Arguments::new(args), OperatorCommand::List));
    }
    if name == b"stats".as_slice() {
        return Some(done(Arguments::new(args), OperatorCommand::Stats));
    }
    None
}

/// Parse the argument of `slices N`, 1 to 1,000 slices.
#[tactic(auto, unfolding(rv_model::specs::commands::Reading::one_argument))]
fn slices_args(args: &[u8]) -> Option<OperatorCommand>
    ensures { result ≡ one_argument Slices (number_between 1 1000) (words args.now) }
{
    let mut words = Arguments::new(args);
    let count = count(words.next_argument()?)?;
    done(words, OperatorCommand::Slices(count))
}

/// Parse the argument of `run U`, a user's number.
#[tactic(auto, unfolding(rv_model::specs::commands::Reading::one_argument))]
fn run_args(args: &[u8]) -> Option<OperatorCommand>
    ensures { result ≡ one_argument Run (number_between 1 user_count) (words args.now) }
{
    let mut words = Arguments::new(args);
    let user = user(words.next_argument()?)?;
    done(words, OperatorCommand::Run(user))
}

/// Parse an operator's line, a name and its arguments separated by spaces (byte 0x20). `line` excludes the star and the
/// space after it.
///
/// Return `UnknownCommand` (E03) for an unknown name, else `Argument` (E04) if an argument is missing, superfluous,
/// malformed or out of range.
#[tactic(auto, unfolding(rv_model::specs::commands::Operator::operator_parse))]
pub fn parse_operator(line: &[u8]) -> Result<OperatorCommand, Refusal>
    ensures { result ≡ operator_parse line.now }
{
    let mut words = Arguments::new(line);
    let Some(name) = words.next_argument() else {
        return Err(Refusal::UnknownCommand);
    };
    match operator_named(name, words.rest()) {
        Some(command) => command.ok_or(Refusal::Argument),
        None => Err(Refusal::UnknownCommand),
    }
}

/// Append the number of granted slices, for example `* granted 7`.
#[tactic(auto, unfolding(rv_model::specs::commands::Operator::granted_line))]
pub fn granted_line(reply: &mut Reply, count: usize)
    requires { length reply.old + 31 ≤ 4096 }
    ensures text { reply.new ≡ reply.old ++ text 42 (granted_line count ∷ []) }
    ensures bound { length reply.new ≤ length reply.old + 31 }
{
    reply.push(b"* granted ");
    push_decimal(reply, count as u64);
    reply.push(b"\n");
}

/// Return the state of a user's program as printed by `list`.
fn run_state_word(run_state: RunState) -> &'static [u8]
    ensures value { result.now ≡ run_state_word run_state }
    ensures bound { length result.now ≤ 7 }
{
    match run_state {
        RunState::Absent => b"-",
        RunState::Stopped => b"stopped",
        RunState::Running => b"running",
    }
}

/// Append the state of the user at `index`, counted from 0.
#[tactic(auto, unfolding(rv_model::specs::commands::Operator::listed_user))]
fn push_user(reply: &mut Reply, run_states: &[RunState; USER_COUNT], index: usize)
    requires within { index + 1 ≤ user_count }
    requires room { length reply.old + 29 ≤ 4096 }
    ensures text { reply.new ≡ reply.old ++ listed_user run_states.now (index + 1) }
    ensures bound { length reply.new ≤ length reply.old + 29 }
{
    reply.push(b" ");
    push_decimal(reply, index as u64 + 1);
    reply.push(b":");
    reply.push(run_state_word(run_states[index]));
}

/// Append the states of all users, user 1 first.
fn push_users(reply: &mut Reply, run_states: &[RunState; USER_COUNT])
    requires { length reply.old + 232 ≤ 4096 }
    ensures text { reply.new ≡ reply.old ++ flat_map (listed_user run_states.now) users }
    ensures bound { length reply.new ≤ length reply.old + 232 }
{
    for index in 0..USER_COUNT {
        push_user(reply, run_states, index);
    }
}

/// Append the reply to `list`, the state of each user's program, for example
/// `* list 1:running 2:stopped 3:- 4:- 5:- 6:- 7:- 8:-`.
#[tactic(auto, unfolding(rv_model::specs::commands::Operator::list_line))]
pub fn list_line(reply: &mut Reply, run_states: &[RunState; USER_COUNT])
    requires { length reply.old + 239 ≤ 4096 }
    ensures text { reply.new ≡ reply.old ++ text 42 (list_line run_states.now ∷ []) }
    ensures bound { length reply.new ≤ length reply.old + 239 }
{
    reply.push(b"* list");
    push_users(reply, run_states);
    reply.push(b"\n");
}

/// Return a user's number, or 0 for no user.
fn owner_number(owner: Option<User>) -> u64
    ensures { result ≡ unwrap_or owner 0 }
{
    match owner {
        Some(user) => u64::from(user.number()),
        None => 0,
    }
}

/// Append the statistics of the vector unit.
#[tactic(auto, unfolding(rv_model::specs::commands::Operator::stats_line))]
fn push_stats(reply: &mut Reply, stats: &Stats)
    requires { length reply.old + 110 ≤ 4096 }
    ensures text { reply.new ≡ reply.old ++ stats_line stats.now }
    ensures bound { length reply.new ≤ length reply.old + 110 }
{
    reply.push(b"saves ");
    push_decimal(reply, stats.saves);
    reply.push(b" restores ");
    push_decimal(reply, stats.restores);
    reply.push(b" inits ");
    push_decimal(reply, stats.inits);
    reply.push(b" owner ");
    push_decimal(reply, owner_number(stats.owner));
}

/// Append the reply to `stats`, the numbers of saves, restores and initialisations of vector states and the owner of
/// the vector unit, for example `* saves 2 restores 1 inits 2 owner 1`. Owner 0 means that the unit has no owner.
pub fn stats_line(reply: &mut Reply, stats: &Stats)
    requires { length reply.old + 113 ≤ 4096 }
    ensures text { reply.new ≡ reply.old ++ text 42 (stats_line stats.now ∷ []) }
    ensures bound { length reply.new ≤ length reply.old + 113 }
{
    reply.push(b"* ");
    push_stats(reply, stats);
    reply.push(b"\n");
}
