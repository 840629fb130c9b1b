//! The addresses of a user's breakpoints.
use arrayvec::ArrayVec;
use std::marker::Model;

/// Maximum number of addresses of a set.
const MAX_ADDRESSES: usize = 16;

/// A set of at most 16 addresses, in ascending order.
#[derive(Drop)]
pub(crate) struct AddressSet {
    addresses: ArrayVec<u64, MAX_ADDRESSES>,
}

impl Model for AddressSet {
    ghost use Rattle.std.specs.Prelude.{List, ℕ};

    ghost Value = { List ℕ };

    ghost view = { λ s. s.addresses.items };
}

impl AddressSet {
    ghost use Rattle.std.specs.Prelude.{◌≡◌, ◌≤◌, ◌<◌, ◌==◌, nat_le, nat_lt, [], filter, length};
    ghost use Rattle.std.specs.List.{list_any};
    ghost use Rattle.rv_model.specs.commands.Breakpoints.{breakpoint_limit, with_address, without_address};

    /// Create an empty set.
    pub(crate) fn new() -> AddressSet
        ensures { result ≡ [] }
    {
        AddressSet {
            addresses: ArrayVec::new(),
        }
    }

    /// Return whether the set contains an address.
    pub(crate) fn contains(&self, addr: u64) -> bool
        ensures { result ≡ list_any (λ a. a == addr) self.now }
    {
        self.addresses.as_slice().contains(&addr)
    }

    /// Return whether the set is empty.
    #[inline(always)]
    pub(crate) fn is_empty(&self) -> bool
        ensures { result ≡ nat_le (length self.now) 0 }
    {
        self.addresses.is_empty()
    }

    /// Return whether the set has 16 addresses.
    pub(crate) fn is_full(&self) -> bool
        ensures { result ≡ nat_le breakpoint_limit (length self.now) }
    {
        self.addresses.is_full()
    }

    /// Return the addresses above an address, in ascending order.
    fn above(&self, addr: u64) -> ArrayVec<u64, MAX_ADDRESSES>
        ensures { result.items ≡ filter (λ a. nat_lt addr a) self.now }
    {
        let mut above = ArrayVec::new();
        let _ = above.try_extend_from_slice(self.as_slice());
        above.retain(|other| *other > addr);
        above
    }

    /// Add an address, unless the set contains it.
    pub(crate) fn insert(&mut self, addr: u64)
        requires { length self.old < breakpoint_limit }
        ensures { self.new ≡ with_address addr self.old }
    {
        let above = self.above(addr);
        self.addresses.retain(|other| *other < addr);
        self.addresses.push(addr);
        let _ = self.addresses.try_extend_from_slice(above.as_slice());
    }

    /// Remove an address, if the set contains it.
    pub(crate) fn remove(&mut self, addr: u64)
        ensures { self.new ≡ without_address addr self.old }
    {
        self.addresses.retain(|other| *other != addr);
    }

    /// Return the addresses, in ascending order.
    pub(crate) fn as_slice(&self) -> &[u64]
        ensures value { result.now ≡ self.now }
        ensures few { length result.now ≤ 16 }
    {
        self.addresses.as_slice()
    }
}
