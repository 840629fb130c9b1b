//! Keys of the rows of counts.

/// The subject of a row's counts: a word at an address, vector instructions under a vector type and length, or jumps
/// from one address to another that link or return.
#[derive(Clone, Copy, PartialEq, Eq)]
pub enum Key {
    /// A word at an address.
    Word { pc: u64, word: u32 },
    /// The value of `vtype`, and `vl` in elements.
    Length { vtype: u64, vl: u16 },
    /// The address of a jump, and its target.
    Jump { pc: u64, target: u64 },
}
