//! Tests the decoder and the assembler. First it prints the list of all names, which is docs/INSTRUCTIONS.md
//! (`instruction_list.rt`). Then it decodes words and encodes them again (`encodings.rt`), and assembles texts and prints
//! words as text (`spellings.rt`). Last, it uses random words and texts (`by_chance.rt`).
#![tactic(auto)]

mod by_chance;
mod encodings;
mod instruction_list;
mod spellings;

use std::{fs, io};

/// The input file of each part.
const FILES: [&str; 4] = ["titles", "encodings", "spellings", "tokens"];

fn main(rt: HostRuntime) -> io::Result<()> {
    for part in 0..FILES.len() {
        let text = fs::read_to_string(&rt, FILES[part])?;
        let lines = text.as_str();
        match part {
            0 => instruction_list::print_list(&rt, lines)?,
            1 => encodings::print_encodings(&rt, lines)?,
            2 => spellings::print_spellings(&rt, lines)?,
            _ => by_chance::print_tallies(&rt, lines)?,
        }
    }
    Ok(())
}
