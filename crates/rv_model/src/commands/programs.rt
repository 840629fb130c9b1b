//! Commands on programs in a user's memory.
use crate::commands::arguments::{Count, LinePart};

/// A command on programs in memory. It borrows names and texts from the command's line.
#[derive(Drop)]
pub enum ProgramCommand<'a> {
    /// `load NAME`: restart the user's machine with the memory of an image.
    Load(LinePart<'a>),
    /// `asm ADDR TEXT`: write an instruction's word at an address that is divisible by 4.
    Asm { addr: u64, text: LinePart<'a> },
    /// `dis ADDR N`: print 1 to 16 words with their texts, from an address that is divisible by 4.
    Dis { addr: u64, count: Count<16> },
}
