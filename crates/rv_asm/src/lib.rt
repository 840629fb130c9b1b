//! Assembler: encodes the text of an instruction as a 32-bit word, and prints the canonical text of a word.
#![tactic(auto)]

mod assembler;
mod fault;
mod field;
mod name;
mod number;
mod operands;
mod print;
mod read;
mod table;
mod token;
mod vector_type;

pub use assembler::{assemble, name_mask, slots_of_word, text_of};
pub use fault::AsmFault;
pub use print::Text;
