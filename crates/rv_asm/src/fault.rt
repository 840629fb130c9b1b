//! The error of a text that doesn't assemble.

/// Column, counted from 1, of the first token that doesn't fit its slot or has none. If all tokens
/// fit and slots are left, it is the text's length plus 1.
#[derive(Clone, Copy)]
pub struct AsmFault {
    pub column: usize,
}
