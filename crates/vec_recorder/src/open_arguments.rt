//! The options of open choices: `--open SEED`, `--kinds KIND,...`, `--open-from N`, `--open-to N`, `--open-elements A-B`,
//! `--chosen FILE`.
ghost use Rattle.std.specs.Prelude.{◌≡◌, ◌<◌, ◌==◌, IfErr, IfOk, IfSome, None, option_map};
ghost use Rattle.std.specs.List.{list_all, slice_split};
ghost use Rattle.rv_model.specs.commands.Arguments.{number_between};
ghost use Rattle.vec_recorder.specs.CommandLine.{option_arguments};
ghost use Rattle.vec_recorder.specs.OpenArguments.{AreChoicesOf, AreElementsOf, AreKindsIn, AreKindsOf, IsRangeOf, is_kind, names};
ghost use Rattle.vec_recorder.specs.Statuses.{program_status};

use crate::command_line::Options;
use crate::numbers::{MOST_TICKS, decimal_number, number_or_default, seed_number};
use crate::program_fault::ProgramFault;
use open_choices::{Kinds, Seed};
use rv_model::GROUP_BYTES;

/// All kinds of choices.
const ALL_KINDS: Kinds = Kinds {
    tail: true,
    masked: true,
    trim: true,
    length: true,
};

/// Return whether a list with commas between its names has this one.
fn names(word: &str, kind: &str) -> bool
    ensures { result ≡ names word.now kind.now }
{
    word.split(',').any(|name| name == kind)
}

/// Return whether this is the name of a kind.
fn is_kind(name: &str) -> bool
    ensures { result ≡ is_kind name.now }
{
    name == "tail" || name == "masked" || name == "trim" || name == "length"
}

/// Return whether a list with commas between its names has only names of kinds.
fn are_kinds(word: &str) -> bool
    ensures { result ≡ list_all is_kind (slice_split (λ byte. byte == 44) word.now) }
{
    word.split(',').all(|name| is_kind(name))
}

/// Return the kinds in a list with commas between them, or `None` if one isn't the name of a kind.
fn named_kinds(word: &str) -> Option<Kinds>
    ensures { IfSome result (AreKindsIn word.now) }
{
    if !are_kinds(word) {
        return None;
    }
    Some(Kinds {
        tail: names(word, "tail"),
        masked: names(word, "masked"),
        trim: names(word, "trim"),
        length: names(word, "length"),
    })
}

/// Return the number of an element, 0 to 255.
fn element_number(word: &[u8]) -> Option<usize>
    ensures value { result ≡ number_between 0 255 word.now }
    ensures bound { IfSome result (λ n. n < 256) }
{
    let value = decimal_number(word)?;
    if value < GROUP_BYTES as u128 {
        Some(value as usize)
    } else {
        None
    }
}

/// Return the first element of a range and the one after its last, or `None` if the value isn't a range.
fn element_range(word: &str) -> Option<(usize, usize)>
    ensures { IfSome result (λ range. IsRangeOf word.now range.0 range.1) }
{
    let (first, last) = word.split_once('-')?;
    let low = element_number(first.as_bytes())?;
    let high = element_number(last.as_bytes())?;
    if high < low {
        return None;
    }
    Some((low, high + 1))
}

/// Return the option that needs `--open`, if one is given.
fn needs_open(options: &Options<'_>) -> Option<&'static str>
    ensures { result ≡ None → (option_arguments options.now).chosen ≡ None }
{
    if options.kinds.is_some() {
        Some("--kinds")
    } else if options.open_from.is_some() {
        Some("--open-from")
    } else if options.open_to.is_some() {
        Some("--open-to")
    } else if options.open_elements.is_some() {
        Some("--open-elements")
    } else if options.chosen.is_some() {
        Some("--chosen")
    } else {
        None
    }
}

/// Return the option that can't be combined with `--open`, if one is given.
fn excludes_open(options: &Options<'_>) -> Option<&'static str>
    ensures counts { result ≡ None → (option_arguments options.now).counts ≡ None }
    ensures changes { result ≡ None → (option_arguments options.now).changes ≡ None }
    ensures policy { result ≡ None → (option_arguments options.now).policy ≡ None }
{
    if options.counts.is_some() {
        Some("--counts")
    } else if options.changes.is_some() {
        Some("--changes")
    } else if options.policy.is_some() {
        Some("--policy")
    } else {
        None
    }
}

/// Return the kinds of `--kinds`; all without it.
fn kinds_of<'a>(word: Option<&str>) -> Result<Kinds, ProgramFault<'a>>
    ensures kinds { IfOk result (AreKindsOf (option_map (λ word. word.now) word.entry)) }
    ensures refused { IfErr result (λ fault. program_status fault ≡ 2) }
{
    let Some(word) = word else {
        return Ok(ALL_KINDS);
    };
    match named_kinds(word) {
        Some(kinds) => Ok(kinds),
        None => Err(ProgramFault::Kinds),
    }
}

/// Return the range of `--open-elements`; all elements without it.
fn elements_of<'a>(word: Option<&str>) -> Result<(usize, usize), ProgramFault<'a>>
    ensures elements { IfOk result (λ range. AreElementsOf (option_map (λ word. word.now) word.entry) range.0 range.1) }
    ensures refused { IfErr result (λ fault. program_status fault ≡ 2) }
{
    let Some(word) = word else {
        return Ok((0, GROUP_BYTES));
    };
    match element_range(word) {
        Some(range) => Ok(range),
        None => Err(ProgramFault::OpenElements),
    }
}

/// Return the choices of a run, if `--open` is given.
pub(crate) fn open_seed<'a>(options: &Options<'_>) -> Result<Option<Seed>, ProgramFault<'a>>
    ensures choices { IfOk result (λ seed. AreChoicesOf (option_arguments options.now) seed) }
    ensures refused { IfErr result (λ fault. program_status fault ≡ 2) }
{
    let Some(word) = options.seed else {
        return match needs_open(options) {
            Some(option) => Err(ProgramFault::OpenAlone(option)),
            None => Ok(None),
        };
    };
    if let Some(option) = excludes_open(options) {
        return Err(ProgramFault::OpenWith(option));
    }
    let Some(seed) = seed_number(word.as_bytes()) else {
        return Err(ProgramFault::Open);
    };
    let Some(first) = number_or_default(options.open_from, 1) else {
        return Err(ProgramFault::OpenFrom);
    };
    let Some(last) = number_or_default(options.open_to, MOST_TICKS) else {
        return Err(ProgramFault::OpenTo);
    };
    if last < first {
        return Err(ProgramFault::OpenFromAboveTo);
    }
    let kinds = kinds_of(options.kinds)?;
    let (low, high) = elements_of(options.open_elements)?;
    Ok(Some(Seed {
        seed,
        kinds,
        first,
        last,
        low,
        high,
    }))
}
