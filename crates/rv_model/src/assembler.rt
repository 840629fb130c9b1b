//! Assembler text: the forms that texts have, and the names of instructions.
pub mod forms;
mod laws;
pub mod mnemonics;

pub use laws::operands_of_instructions;
