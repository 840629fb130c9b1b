//! Decodes and prints random words, and assembles random texts.
//!
//! A line for each opcode, and one for entirely random words, has the number of words, the number of instructions, and
//! the 32-bit FNV-1a digest of the words' names, each followed by a byte 0A. It ends with the number of wrong words: their
//! instruction or their text encodes another word, or their text disagrees with the decoder. A word that isn't an
//! instruction has the name `.word`, and so has every fence except 0ff0000f.
//!
//! A line for each kind of text has the number of texts accepted, the number refused, and the digest of the results: 1 and
//! the word, or 0 and the column, as five bytes. It ends with the number of wrong results: a column outside the text, or a
//! word whose text encodes another word.
//!
//! The expected instructions and names come from the disassembler of GNU binutils 2.40, for the names of the profile. The
//! expected results for texts come from an independent implementation of the grammar (docs/ASSEMBLER.md), in another
//! language.
mod digest;
mod texts;
mod words;

use draws::Draws;
use std::io;
use texts::{KINDS, print_texts};
use words::{OPCODES, print_words};

/// Number of words with each opcode.
const OF_OPCODE: usize = 5750;

/// Number of words with any opcode.
const OF_ANY: usize = 8000;

/// Number of texts of each kind.
const TEXTS: usize = 40_000;

/// Prints the lines for words, then those for texts. `tokens` has one token in each line, for texts built from tokens.
pub(crate) fn print_tallies(rt: &HostRuntime, tokens: &str) -> io::Result<()> {
    let mut draws = Draws::new(1);
    for opcode in OPCODES {
        print_words(rt, Some(opcode), OF_OPCODE, &mut draws)?;
    }
    print_words(rt, None, OF_ANY, &mut draws)?;
    for kind in KINDS {
        print_texts(rt, kind, TEXTS, tokens, &mut draws)?;
    }
    Ok(())
}
