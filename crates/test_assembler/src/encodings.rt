//! Decodes words and encodes their instructions again. The words are those in the file `encodings`, one a line in
//! hexadecimal, and 100,000 from a fixed generator.
//!
//! For every row of the table, the file has words from the assemblers of GNU binutils 2.40 and LLVM 19.1.7; the output is
//! `yes` and the same word again. Then it has words that no row matches; the output is `none`.
use rv_decode::encoded_again;
use std::io;

/// Number of generated words.
pub(crate) const GENERATED: u32 = 100_000;

/// The word after this one in a linear congruential generator.
pub(crate) fn next_word(word: u32) -> u32 {
    word.wrapping_mul(1_664_525).wrapping_add(1_013_904_223)
}

/// Whether a word isn't an instruction, or its instruction encodes the same word.
pub(crate) fn is_same(word: u32) -> bool {
    match encoded_again(word) {
        Some(again) => again == word,
        None => true,
    }
}

/// Prints a line for each word in the file, and one for the generated words.
pub(crate) fn print_encodings(rt: &impl Print, words: &str) -> io::Result<()> {
    for line in words.lines() {
        let word = u32::from_str_radix(line, 16).unwrap_or(0);
        match encoded_again(word) {
            Some(again) => println!(rt; "{word:08x} yes {again:08x}")?,
            None => println!(rt; "{word:08x} none")?,
        }
    }
    let mut word = 0;
    let mut found = 0u32;
    for _ in 0..GENERATED {
        word = next_word(word);
        found = found.wrapping_add(u32::from(!is_same(word)));
    }
    println!(rt; "{GENERATED} generated words, {found} mismatches")
}
