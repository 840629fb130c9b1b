//! Assembles texts and prints words as text. The input is the file `spellings`, where each line has a word in hexadecimal,
//! a space and a text, and 100,000 words from a fixed generator.
//!
//! For every instruction, the file has words and texts from the assemblers of GNU binutils 2.40 and LLVM 19.1.7; the
//! output repeats both. Then it has texts that don't assemble.
use crate::encodings::{GENERATED, next_word};
use rv_asm::{Text, assemble, text_of};
use rv_decode::decode;
use rv_model::{Instr, ScalarInstr};
use std::io;

/// The opcodes of generated words.
const OPCODES: [u32; 13] = [
    0x03, 0x07, 0x0f, 0x13, 0x17, 0x1b, 0x23, 0x27, 0x33, 0x37, 0x3b, 0x57, 0x73,
];

/// Whether a text assembles to this word.
pub(crate) fn spells(text: &Text, word: u32) -> bool {
    match assemble(text.as_str().as_bytes()) {
        Ok(again) => again == word,
        Err(_) => false,
    }
}

/// Whether the text of a word names an instruction if and only if the decoder accepts the word. Fences are skipped,
/// since all except one have no name.
pub(crate) fn is_reassembled(word: u32, text: &Text) -> bool {
    let directive = text.as_str().starts_with(".word ");
    match decode(word) {
        Some(Instr::Scalar(ScalarInstr::Fence { .. })) => true,
        Some(_) => !directive,
        None => directive,
    }
}

/// Prints the number of generated words, with each opcode in turn, whose text encodes another word. Then it prints the
/// number of words whose text disagrees with the decoder.
fn print_generated(rt: &impl Print, text: &mut Text) -> io::Result<()> {
    let mut generated = 0;
    let mut found = 0u32;
    let mut misprinted = 0u32;
    for number in 0..GENERATED {
        generated = next_word(generated);
        let word = generated & !0x7f | OPCODES[number as usize % OPCODES.len()];
        text_of(word, text);
        found = found.wrapping_add(u32::from(!spells(text, word)));
        misprinted = misprinted.wrapping_add(u32::from(!is_reassembled(word, text)));
    }
    println!(rt;
        "{GENERATED} generated words, {found} mismatches, {misprinted} that the decoder tells otherwise"
    )
}

/// Prints a line for each word and text in the file, and one for the generated words.
pub(crate) fn print_spellings(rt: &impl Print, lines: &str) -> io::Result<()> {
    let mut text = Text::new();
    for line in lines.lines() {
        if let Some((word, spelling)) = line.split_once(' ') {
            text_of(u32::from_str_radix(word, 16).unwrap_or(0), &mut text);
            match assemble(spelling.as_bytes()) {
                Ok(again) => println!(rt; "{again:08x} {}", text.as_str())?,
                Err(fault) => println!(rt; "column {}, {}", fault.column, text.as_str())?,
            }
        }
    }
    print_generated(rt, &mut text)
}
