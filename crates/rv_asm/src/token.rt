//! Splits a text into tokens.
ghost use Rattle.std.specs.Prelude.{◌≡◌, ◌≢◌, ℕ, ◌+◌, ◌<◌, ◌≤◌, length, drop, slice_index, take, IsTrue, true};
ghost use Rattle.std.specs.List.{between};
ghost use Rattle.rv_model.specs.assembler.Tokens.{in_run, tokens, Token as Piece};
ghost use Rattle.rv_asm.specs.Places.{rest, Takes, TakesOne};

use crate::fault::AsmFault;

/// A token, and the column of its first byte in the text, counted from 1.
#[derive(Clone, Copy)]
pub struct Token<'a> {
    pub text: &'a [u8],
    pub column: usize,
}

impl Token<'_> {
    /// The fault of a token that doesn't fit its slot or has none.
    pub(crate) fn fault(&self) -> AsmFault
        ensures { result.column ≡ self.now.column }
    {
        AsmFault {
            column: self.column,
        }
    }
}

/// Whether a byte can be in a token of several bytes (a run): `a` to `z`, `0` to `9`, `.` and `_`.
fn in_run(byte: u8) -> bool
    ensures { result ≡ in_run byte }
{
    byte.is_ascii_lowercase() || byte.is_ascii_digit() || byte == b'.' || byte == b'_'
}

/// The index of the first byte at or after index `at` that isn't a space, or the length of the text.
#[tactic(auto, using(crate::proofs::Tokens::space_skipped))]
fn after_spaces(text: &[u8], at: usize) -> usize
    requires { at ≤ length text.now }
    ensures range { result ≤ length text.now }
    ensures first { result < length text.now → slice_index text.now result ≢ 32 }
    ensures same { tokens (result + 1) (drop result text.now) ≡ tokens (at + 1) (drop at text.now) }
{
    let mut start = at;
    while start < text.len() && text[start] == b' ' {
        start += 1;
    }
    start
}

/// The index after the token that starts at index `at`: a run, or a single byte.
fn run_end(text: &[u8], at: usize) -> usize
    requires { at < length text.now }
    ensures above { at < result }
    ensures range { result ≤ length text.now }
    ensures run { (k : ℕ) → at < k → k < result → in_run (slice_index text.now k) ≡ true }
    ensures ends { result < length text.now → IsTrue (in_run (slice_index text.now at))
        → in_run (slice_index text.now result) ≢ true }
    ensures single { in_run (slice_index text.now at) ≢ true → result ≡ at + 1 }
{
    let mut end = at + 1;
    if in_run(text[at]) {
        while end < text.len() && in_run(text[end]) {
            end += 1;
        }
    }
    end
}

/// The first token at or after index `at`, and the index after it; `None` if only spaces are left.
pub(crate) fn next_token<'a>(text: &'a [u8], at: usize) -> Option<(Token<'a>, usize)>
    requires { at ≤ length text.now }
    ensures { Takes text.now at result }
{
    let start = after_spaces(text, at);
    if start == text.len() {
        return None;
    }
    let end = run_end(text, start);
    Some((
        Token {
            text: &text[start..end],
            column: start + 1,
        },
        end,
    ))
}

/// The first token at or after index `at`, and the index after it. If only spaces are left, the fault
/// is in the column after the text's end.
pub(crate) fn take<'a>(text: &'a [u8], at: usize) -> Result<(Token<'a>, usize), AsmFault>
    requires { at ≤ length text.now }
    ensures { TakesOne text.now at result }
{
    match next_token(text, at) {
        Some(found) => Ok(found),
        None => Err(AsmFault {
            column: text.len() + 1,
        }),
    }
}
