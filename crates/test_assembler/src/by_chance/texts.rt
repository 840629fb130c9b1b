//! Assembles random texts.
use crate::by_chance::digest::{EMPTY, digest};
use crate::by_chance::words::{OPCODES, word};
use crate::spellings::spells;
use draws::Draws;
use rv_asm::{Text, assemble, text_of};
use std::io;

/// Kinds of random texts.
#[derive(Clone, Copy, Drop)]
pub(crate) enum Kind {
    /// The text of a random word, with up to three bytes changed, inserted or removed.
    Changed,
    /// Tokens in any order; the first is a name, mostly that of an instruction.
    Tokens,
    /// Any bytes.
    Bytes,
}

/// Each kind, and its name in the output.
pub(crate) const KINDS: [(Kind, &str); 3] = [
    (Kind::Changed, "texts of words, changed"),
    (Kind::Tokens, "tokens in any order"),
    (Kind::Bytes, "any bytes"),
];

/// Number of names, mostly those of instructions; they are the first tokens of the file `tokens`.
const NAMES: usize = 24;

/// Number of tokens after the names in the file; some are parts of operands, and others are invalid.
const OPERANDS: usize = 40;

/// The bytes that changes mostly use.
const BYTES: &[u8; 24] = b"0123456789xv,()-. \tetmAf";

/// Maximum size of a text in bytes.
const ROOM: usize = 256;

/// Appends a text, up to `ROOM` bytes in all.
fn add(line: &mut Vec<u8>, text: &[u8]) {
    for byte in text {
        if line.len() < ROOM {
            let _ = line.push(*byte);
        }
    }
}

/// Appends the token with this number, counted from 0.
fn add_token(line: &mut Vec<u8>, tokens: &str, number: usize) {
    let mut place = 0usize;
    for token in tokens.lines() {
        if place == number {
            add(line, token.as_bytes());
        }
        place = place.wrapping_add(1);
    }
}

/// Changes, inserts or removes a byte.
fn change(line: &mut Vec<u8>, draws: &mut Draws) {
    let place = draws.below(line.len().min(ROOM) + 1);
    let byte = match draws.below(16) {
        0 => draws.byte(),
        _ => BYTES[draws.below(24)],
    };
    match draws.below(3) {
        0 => {
            if place <= line.len() && line.len() < ROOM {
                let _ = line.insert(place, byte);
            }
        }
        1 => {
            if let Some(old) = line.get_mut(place) {
                *old = byte;
            }
        }
        _ => {
            if place < line.len() {
                line.remove(place);
            }
        }
    }
}

/// Replaces the line with a random text of a kind.
fn make(kind: Kind, draws: &mut Draws, tokens: &str, text: &mut Text, line: &mut Vec<u8>) {
    line.clear();
    match kind {
        Kind::Changed => {
            let opcode = OPCODES[draws.below(16)];
            text_of(word(Some(opcode), draws), text);
            add(line, text.as_str().as_bytes());
            for _ in 0..draws.below(4) {
                change(line, draws);
            }
        }
        Kind::Tokens => {
            add_token(line, tokens, draws.below(NAMES));
            for _ in 0..draws.below(12) {
                add(line, draws.choice(&["", " ", " ", ", "]).as_bytes());
                add_token(line, tokens, NAMES + draws.below(OPERANDS));
            }
        }
        Kind::Bytes => {
            for _ in 0..draws.below(80) {
                add(line, &[draws.byte()]);
            }
        }
    }
}

/// Assembles `count` texts of a kind. Prints the number accepted, the number refused, the digest of the words and of the
/// columns of refusals, and the number of wrong results. A result is wrong if its column is outside the text, or if the
/// text of its word encodes another word.
pub(crate) fn print_texts(
    rt: &HostRuntime,
    kind: (Kind, &str),
    count: usize,
    tokens: &str,
    draws: &mut Draws,
) -> io::Result<()> {
    let mut text = Text::new();
    let mut line = Vec::new(rt.alloc());
    let mut accepted = 0u64;
    let mut refused = 0u64;
    let mut answers = EMPTY;
    let mut wrong = 0u64;
    for _ in 0..count {
        make(kind.0, draws, tokens, &mut text, &mut line);
        let right = match assemble(line.as_slice()) {
            Ok(word) => {
                accepted = accepted.wrapping_add(1);
                answers = digest(digest(answers, &[1]), &word.to_le_bytes());
                text_of(word, &mut text);
                spells(&text, word)
            }
            Err(fault) => {
                refused = refused.wrapping_add(1);
                let column = (fault.column % 0x1_0000_0000) as u32;
                answers = digest(digest(answers, &[0]), &column.to_le_bytes());
                1 <= fault.column && fault.column <= line.len().wrapping_add(1)
            }
        };
        wrong = wrong.wrapping_add(u64::from(!right));
    }
    println!(rt;
        "{}: {accepted} accepted, {refused} refused, answers {answers:08x}, {wrong} wrong",
        kind.1
    )
}
