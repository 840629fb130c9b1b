//! Sizes and permissions of a user's memory.
ghost use Rattle.std.specs.Prelude.{◌≡◌};
ghost use Rattle.rv_model.specs.memory.Memory.{permits, WritesBytes, KeepsPermissions, MapsZeros, MapsPermissions};
ghost use Rattle.rv_model.specs.memory.Memory.{ReadsBytes, AllowsEachByte};

use crate::machine::USER_COUNT;

/// Size of a page in bytes.
pub const PAGE_SIZE: u64 = 4096;

/// Largest number of pages of a user.
pub const PAGE_QUOTA: usize = 256;

/// Number of frames for the pages of all users, enough for each user's quota.
pub const FRAME_COUNT: usize = USER_COUNT * PAGE_QUOTA;

/// The end of the address space: each mapped address is below it.
pub const ADDRESS_END: u64 = 1 << 48;

/// Number of pages below the end of the address space.
pub(crate) const PAGE_LIMIT: u64 = ADDRESS_END / PAGE_SIZE;

/// Permissions of a page.
#[derive(Clone, Copy, Debug, Default, PartialEq, Eq)]
pub struct Permissions {
    pub read: bool,
    pub write: bool,
    pub execute: bool,
}

/// Purpose of a memory access. A program fetches, loads and stores; the monitor may access any mapped page.
#[derive(Clone, Copy, Debug, PartialEq, Eq)]
pub enum Access {
    Fetch,
    Load,
    Store,
    Monitor,
}

/// An access that isn't allowed at each of its bytes; `addr` is its first address.
#[derive(Clone, Copy, Debug, PartialEq, Eq)]
pub struct Fault {
    pub addr: u64,
}

/// Reason why pages can't be mapped: the user would exceed the quota, or one of the pages is mapped already.
#[derive(Clone, Copy, Debug, PartialEq, Eq)]
pub enum MapRefusal {
    Quota,
    AlreadyMapped,
}

impl Access {
    /// Return whether a page with these permissions allows the access.
    pub fn is_permitted(self, permissions: Permissions) -> bool
        ensures { result ≡ permits self permissions }
    {
        match self {
            Access::Fetch => permissions.execute,
            Access::Load => permissions.read,
            Access::Store => permissions.write,
            Access::Monitor => true,
        }
    }
}

/// Laws about the effect of a write, of new pages, of a read and of a check at each address.
pub fn memory_laws()
    ensures written { WritesBytes }
    ensures kept { KeepsPermissions }
    ensures zeros { MapsZeros }
    ensures permissions { MapsPermissions }
    ensures read { ReadsBytes }
    ensures allowed { AllowsEachByte }
{}
