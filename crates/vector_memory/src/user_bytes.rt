//! The bytes of one user.
ghost use Rattle.std.specs.Prelude.{◌≡◌, ◌+◌, ◌^◌, ◌≤◌, ◌↔◌, false, true, length, None, IsOk, IfErr, IfSome, OnOk};
ghost use Rattle.std.specs.Prelude.{OnErr};
ghost use Rattle.rv_model.specs.memory.Memory.{Memory, can_access, bytes_at, put_bytes};

use lent_bytes::Edit;
use rv_model::{Access, Fault};

/// Memory of one user, by byte address. An access that isn't allowed for each of its bytes is refused with
/// its first address, and changes nothing. An access of no bytes is always allowed.
pub trait UserBytes {
    // The user's memory.
    ghost memory: { Self → Memory };

    // The same value with its memory replaced.
    ghost with_memory: { Self → Memory → Self };

    /// Check whether each of the `len` bytes from an address on may be accessed.
    fn check(&self, addr: u64, len: usize, access: Access) -> Result<(), Fault>
        ensures ok { IsOk result ↔ (can_access access (memory self.now) addr len ≡ true) }
        ensures fault { IfErr result (λ fault. fault.addr ≡ addr) };

    /// Fill the buffer with the bytes from an address on.
    fn read(&self, addr: u64, access: Access, bytes: &mut [u8]) -> Result<(), Fault>
        ensures ok { IsOk result ↔ (can_access access (memory self.now) addr (length bytes.old) ≡ true) }
        ensures fault { IfErr result (λ fault. fault.addr ≡ addr) }
        ensures value { OnOk result (bytes.new ≡ bytes_at (memory self.now) addr (length bytes.old)) }
        ensures unchanged { OnErr result (bytes.new ≡ bytes.old) };

    /// Lend bytes from an address on, each of which may be accessed: as many as a fast path finds, possibly none.
    fn lend(&self, addr: u64, access: Access) -> &[u8]
        ensures end { addr + length result.now ≤ 2 ^ 64 }
        ensures allowed { can_access access (memory self.now) addr (length result.now) ≡ true }
        ensures value { result.now ≡ bytes_at (memory self.now) addr (length result.now) };

    /// Lend bytes from an address on, each of which may be stored, to an edit: as many as a fast path finds. Return its
    /// result, or `None` if no bytes are found; an implementation may always return `None`.
    fn edit<E: Edit>(&mut self, addr: u64, edit: &E) -> Option<usize>
        ensures changed { IfSome result (λ n. E.changes edit.now (memory self.old) n (memory self.new)) }
        ensures others { self.new ≡ with_memory self.old (memory self.new) }
        ensures unchanged { result ≡ None → self.new ≡ self.old };

    /// Fill the buffer with the bytes from an address on, if a fast path finds them. Return whether it did;
    /// an implementation may always return `false`.
    #[inline(always)]
    fn try_read(&self, _addr: u64, _access: Access, _bytes: &mut [u8]) -> bool
        ensures allowed { result ≡ true → can_access _access (memory self.now) _addr (length _bytes.old) ≡ true }
        ensures value { result ≡ true → _bytes.new ≡ bytes_at (memory self.now) _addr (length _bytes.old) }
        ensures unchanged { result ≡ false → _bytes.new ≡ _bytes.old }
    {
        false
    }

    /// Write the bytes from an address on, if a fast path finds their place. Return whether it did; an
    /// implementation may always return `false`.
    #[inline(always)]
    fn try_write(&mut self, _addr: u64, _access: Access, _bytes: &[u8]) -> bool
        ensures allowed { result ≡ true → can_access _access (memory self.old) _addr (length _bytes.now) ≡ true }
        ensures value { result ≡ true → memory self.new ≡ put_bytes (memory self.old) _addr _bytes.now }
        ensures others { result ≡ true → self.new ≡ with_memory self.old (memory self.new) }
        ensures unchanged { result ≡ false → self.new ≡ self.old }
    {
        false
    }

    /// Write the bytes from an address on.
    fn write(&mut self, addr: u64, access: Access, bytes: &[u8]) -> Result<(), Fault>
        ensures ok { IsOk result ↔ (can_access access (memory self.old) addr (length bytes.now) ≡ true) }
        ensures fault { IfErr result (λ fault. fault.addr ≡ addr) }
        ensures value { OnOk result (memory self.new ≡ put_bytes (memory self.old) addr bytes.now) }
        ensures others { OnOk result (self.new ≡ with_memory self.old (memory self.new)) }
        ensures unchanged { OnErr result (self.new ≡ self.old) };

    // Replacing the memory by itself changes nothing.
    ghost with_memory_same: { (u : Self) → with_memory u (memory u) ≡ u };

    // After two replacements, the memory is the later one.
    ghost with_memory_twice: { (u : Self) (m n : Memory) → with_memory (with_memory u m) n ≡ with_memory u n };
}
