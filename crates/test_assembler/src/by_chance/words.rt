//! Decodes random words, prints them as text, and assembles the text again.
use crate::by_chance::digest::{EMPTY, digest};
use crate::encodings::is_same;
use crate::spellings::{is_reassembled, spells};
use draws::Draws;
use rv_asm::{Text, text_of};
use rv_decode::decode;
use std::io;

/// The opcodes of all instructions: their low seven bits.
pub(crate) const OPCODES: [u32; 16] = [
    0x03, 0x07, 0x0f, 0x13, 0x17, 0x1b, 0x23, 0x27, 0x33, 0x37, 0x3b, 0x57, 0x63, 0x67, 0x6f, 0x73,
];

/// A random word, with this opcode or with any.
pub(crate) fn word(opcode: Option<u32>, draws: &mut Draws) -> u32 {
    match opcode {
        Some(opcode) => draws.word() & !0x7f | opcode,
        None => draws.word(),
    }
}

/// Decodes `count` words with this opcode, or with any. Prints the number of instructions, the digest of the words' names,
/// and the number of wrong words. A word is wrong if its instruction or its text encodes another word, or if its text
/// disagrees with the decoder.
pub(crate) fn print_words(
    rt: &impl Print,
    opcode: Option<u32>,
    count: usize,
    draws: &mut Draws,
) -> io::Result<()> {
    let mut text = Text::new();
    let mut instructions = 0u64;
    let mut names = EMPTY;
    let mut wrong = 0u64;
    for _ in 0..count {
        let word = word(opcode, draws);
        text_of(word, &mut text);
        let name = text.as_str().split(' ').next().unwrap_or("");
        names = digest(digest(names, name.as_bytes()), b"\n");
        instructions = instructions.wrapping_add(u64::from(decode(word).is_some()));
        let right = spells(&text, word) && is_reassembled(word, &text) && is_same(word);
        wrong = wrong.wrapping_add(u64::from(!right));
    }
    match opcode {
        Some(opcode) => print!(rt; "opcode {opcode:02x}: ")?,
        None => print!(rt; "any opcode: ")?,
    }
    println!(rt; "{count} words, {instructions} instructions, names {names:08x}, {wrong} wrong")
}
