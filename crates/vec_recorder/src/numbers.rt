//! Values of options that take a number or a policy.
ghost use Rattle.std.specs.Prelude.{◌≡◌, ◌<◌, ◌≤◌, ◌^◌, IfErr, IfOk, IfSome, MatchResult, None, Some, option_map};
ghost use Rattle.rv_model.specs.commands.Arguments.{decimal_number, number_between};
ghost use Rattle.rv_model.specs.lending.Text.{capped};
ghost use Rattle.vec_recorder.specs.CommandLine.{number_or_default, policy_or_default};
ghost use Rattle.vec_recorder.specs.OpenArguments.{seed_number};
ghost use Rattle.vec_recorder.specs.Statuses.{program_status};
ghost use Rattle.vec_recorder.specs.declared.program_fault.ProgramFault.TheVariants as program_fault;

use crate::program_fault::ProgramFault;
use commit_log::Window;
use memory_changes::MAX_LENGTH;
use rv_model::Policy;
use rv_model::text::digits;

/// The maximum number of ticks or instructions. No run reaches it.
pub(crate) const MOST_TICKS: u64 = 1 << 63;

/// Larger numbers are parsed as this value.
const CAP: u128 = 1 << 64;

/// Return the value of a decimal number without leading zeros, or [`CAP`] for a larger one.
pub(crate) fn decimal_number(word: &[u8]) -> Option<u128>
    ensures { result ≡ capped (2 ^ 64) (decimal_number word.now) }
{
    if let [] | [b'0', _, ..] = word {
        return None;
    }
    digits(10, CAP, word)
}

/// Return the value of a decimal number from 1 to [`MOST_TICKS`].
fn ticks_number(word: &[u8]) -> Option<u64>
    ensures { result ≡ number_between 1 (2 ^ 63) word.now }
{
    let value = decimal_number(word)?;
    if value >= 1 && value <= u128::from(MOST_TICKS) {
        Some(value as u64)
    } else {
        None
    }
}

/// Return the value of a decimal number below 2^64.
pub(crate) fn seed_number(word: &[u8]) -> Option<u64>
    ensures { result ≡ seed_number word.now }
{
    let value = decimal_number(word)?;
    if value < CAP {
        Some(value as u64)
    } else {
        None
    }
}

/// Return the value of a decimal number from 1 to `MAX_LENGTH`.
pub(crate) fn length_number(word: &[u8]) -> Option<usize>
    ensures value { result ≡ number_between 1 256 word.now }
    ensures bound { IfSome result (λ n. (0 < n) × (n ≤ 256)) }
{
    let value = decimal_number(word)?;
    if value >= 1 && value <= MAX_LENGTH as u128 {
        Some(value as usize)
    } else {
        None
    }
}

/// Return the policy of `--policy`; the default is `keep`.
pub(crate) fn policy<'a>(word: Option<&str>) -> Result<Policy, ProgramFault<'a>>
    ensures { MatchResult result
        (λ policy. policy_or_default (option_map (λ word. word.now) word.entry) ≡ Some policy)
        (λ fault. (fault ≡ program_fault.Policy)
        × (policy_or_default (option_map (λ word. word.now) word.entry) ≡ None)) }
{
    let Some(word) = word else {
        return Ok(Policy::Keep);
    };
    match line_text::policy(word.as_bytes()) {
        Some(policy) => Ok(policy),
        None => Err(ProgramFault::Policy),
    }
}

/// Return the number in an option's value, or `other` without the option.
pub(crate) fn number_or_default(word: Option<&str>, other: u64) -> Option<u64>
    ensures { result ≡ number_or_default other (option_map (λ word. word.now) word.entry) }
{
    let Some(word) = word else {
        return Some(other);
    };
    ticks_number(word.as_bytes())
}

/// Return the numbers of the first and the last instruction in the log, from the values of `--from` and `--to`. It
/// fails if a value isn't a number from 1 to [`MOST_TICKS`], or if the first number is above the last.
pub(crate) fn window<'a>(from: Option<&str>, to: Option<&str>) -> Result<Window, ProgramFault<'a>>
    ensures from { IfOk result (λ window.
        number_or_default 1 (option_map (λ word. word.now) from.entry) ≡ Some window.from) }
    ensures to { IfOk result (λ window.
        number_or_default (2 ^ 63) (option_map (λ word. word.now) to.entry) ≡ Some window.to) }
    ensures order { IfOk result (λ window. window.from ≤ window.to) }
    ensures refused { IfErr result (λ fault. program_status fault ≡ 2) }
{
    let Some(first) = number_or_default(from, 1) else {
        return Err(ProgramFault::From);
    };
    let Some(last) = number_or_default(to, MOST_TICKS) else {
        return Err(ProgramFault::To);
    };
    if last < first {
        return Err(ProgramFault::FromAboveTo);
    }
    Ok(Window {
        from: first,
        to: last,
    })
}

/// Return the number of `--ticks`; the default is [`MOST_TICKS`].
pub(crate) fn ticks<'a>(word: Option<&str>) -> Result<u64, ProgramFault<'a>>
    ensures { MatchResult result
        (λ ticks. number_or_default (2 ^ 63) (option_map (λ word. word.now) word.entry) ≡ Some ticks)
        (λ fault. (fault ≡ program_fault.Ticks)
        × (number_or_default (2 ^ 63) (option_map (λ word. word.now) word.entry) ≡ None)) }
{
    match number_or_default(word, MOST_TICKS) {
        Some(ticks) => Ok(ticks),
        None => Err(ProgramFault::Ticks),
    }
}
