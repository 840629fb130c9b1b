//! An entry of a user's page table.
use rv_model::Permissions;

/// A mapped page: its number, the number of the frame that holds its bytes, and its permissions.
#[derive(Clone, Copy, Debug, Default, PartialEq, Eq)]
pub(crate) struct Entry {
    pub(crate) page: u64,
    pub(crate) frame: usize,
    pub(crate) permissions: Permissions,
}
