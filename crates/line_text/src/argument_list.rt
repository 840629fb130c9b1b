//! The arguments of a command line.
ghost use Rattle.std.specs.Prelude.{◌≡◌, ◌∷◌, [], length, ◌<◌, position, IfSome, MatchOption};
ghost use Rattle.rv_model.specs.commands.Reading.{done};
ghost use Rattle.rv_model.specs.text.Words.{words, is_space};
ghost use Rattle.rv_model.specs.lending.Text.{with_piece};

use std::marker::Model;

/// The remaining arguments of a line, separated by spaces (byte 0x20).
#[derive(Drop)]
pub struct Arguments<'a> {
    rest: &'a [u8],
}

impl<'a> Model for Arguments<'a> {
    ghost use Rattle.std.specs.Prelude.{List, ℕ};
    ghost use Rattle.rv_model.specs.text.Words.{words};

    ghost Value = { List (List ℕ) };

    ghost view = { λ w. words w.rest.now };
}

impl<'a> Arguments<'a> {
    /// Return all arguments of a line.
    pub fn new(line: &'a [u8]) -> Arguments<'a>
        ensures { result ≡ words line.now }
    {
        Arguments { rest: line }
    }

    /// Remove and return the next argument, or return `None` at the end of the line.
    pub fn next_argument(&mut self) -> Option<&'a [u8]>
        ensures { MatchOption result (self.old ≡ []) (λ word. self.old ≡ word.now ∷ self.new) }
    {
        let (word, rest) = first_argument(self.rest)?;
        self.rest = rest;
        Some(word)
    }

    /// Return the rest of the line, which contains the remaining arguments and the spaces between them.
    pub fn rest(&self) -> &'a [u8]
        ensures { words result.now ≡ self.now }
    {
        self.rest
    }
}

/// Return `command` if no argument remains, else `None`.
pub fn done<C: Drop>(mut words: Arguments<'_>, command: C) -> Option<C>
    ensures { result ≡ done command words.entry }
{
    match words.next_argument() {
        None => Some(command),
        Some(_) => None,
    }
}

/// Return the index of the first space, if there is one.
fn first_space(line: &[u8]) -> Option<usize>
    ensures first { result ≡ position is_space line.now }
    ensures bound { IfSome result (λ end. end < length line.now) }
{
    line.iter().position(|byte| *byte == b' ')
}

/// Return the bytes before the first space and those after it. Without a space, the first part is the whole line.
#[tactic(auto, using(crate::proofs::ArgumentLaws::words_with_a_space, crate::proofs::ArgumentLaws::words_without_a_space))]
fn cut(line: &[u8]) -> (&[u8], &[u8])
    ensures words { words line.now ≡ with_piece result.0.now (words result.1.now) }
    ensures shorter { 0 < length line.now → length result.1.now < length line.now }
{
    match first_space(line) {
        Some(end) => (&line[..end], &line[end + 1..]),
        None => (line, &[]),
    }
}

/// Return the first argument and the rest of the line after it.
#[tactic(auto, using(crate::proofs::ArgumentLaws::empty_line_has_no_words))]
fn first_argument(line: &[u8]) -> Option<(&[u8], &[u8])>
    ensures { MatchOption result (words line.now ≡ [])
        (λ p. words line.now ≡ p.0.now ∷ words p.1.now) }
{
    let mut rest = line;
    while !rest.is_empty() {
        let (piece, after) = cut(rest);
        if !piece.is_empty() {
            return Some((piece, after));
        }
        rest = after;
    }
    None
}
