//! Places in memory.
ghost use Rattle.std.specs.Prelude.{◌≡◌, ◌≤◌, ◌<◌, ◌↔◌, IfSome, IsSome};

/// Maximum length of a place, in bytes.
pub const MAX_LENGTH: usize = 256;

/// Maximum length of a place that costs little to copy, in bytes.
pub(crate) const SMALL_LENGTH: usize = 16;

/// A place in memory: 1 to `MAX_LENGTH` bytes from an address on.
#[derive(Clone, Copy, Debug)]
pub struct Place {
    pub addr: u64,
    pub len: usize,
    ghost small: { len ≤ 256 },
}

impl Place {
    /// Create a place of `len` bytes from an address on, if `len` is from 1 to `MAX_LENGTH`.
    pub fn new(addr: u64, len: usize) -> Option<Place>
        ensures some { IsSome result ↔ ((0 < len) × (len ≤ 256)) }
        ensures value { IfSome result (λ place. (place.addr ≡ addr) × (place.len ≡ len)) }
    {
        if len == 0 || len > MAX_LENGTH {
            return None;
        }
        Some(Place { addr, len })
    }
}
