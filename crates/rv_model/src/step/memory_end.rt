//! The end of one vector load or store.

/// The end of one vector load or store.
#[derive(Clone, Copy, Debug, PartialEq, Eq)]
pub enum MemEnd {
    /// The instruction completes; a fault-only-first load may have reduced the vector length.
    Done,
    /// The access at this address isn't allowed; the elements before this index are complete.
    Fault { index: usize, addr: u64 },
    /// A tick limit cuts the instruction before this index; the elements before it are complete.
    Cut { index: usize },
}
