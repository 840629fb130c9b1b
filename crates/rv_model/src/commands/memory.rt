//! Commands on a user's memory.
use crate::commands::arguments::{ByteString, Count, PageRange};
use crate::memory::Permissions;

/// A command on the user's memory.
#[derive(Drop)]
pub enum MemoryCommand {
    /// `map ADDR PAGES PERM`: map pages of zeros.
    Map {
        pages: PageRange,
        permissions: Permissions,
    },
    /// `poke ADDR HEX`: write bytes to mapped pages.
    Poke {
        addr: u64,
        bytes: ByteString,
    },
    /// `peek ADDR N`: print 1 to 256 bytes of mapped pages.
    Peek {
        addr: u64,
        count: Count<256>,
    },
}
