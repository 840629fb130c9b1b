//! The end of one vector instruction.

/// The end of one vector instruction.
#[derive(Clone, Copy, Debug, PartialEq, Eq)]
pub enum VEnd {
    /// The instruction completes.
    Done,
    /// The instruction is illegal and changes nothing.
    Illegal,
    /// The access at this address isn't allowed; the elements before it are complete.
    Fault { store: bool, addr: u64 },
    /// A tick limit cuts the load or store before this index; the elements before it are complete.
    Cut { index: usize },
}
