//! Segments in bytes that memory lends ("V" Vector Extension 1.0, sections 7.5, 7.6 and 7.8).
ghost use Rattle.std.specs.Prelude.{◌≡◌, ◌+◌, ◌^◌, ◌≤◌, ◌<◌, ℕ, IfSome, false, length, max, true};
ghost use Rattle.vector_memory.specs.declared.lent.TheConstants.{TRIES};
ghost use Rattle.lent_bytes.specs.Lent.{IsLent};
ghost use Rattle.rv_model.specs.accesses.Transfers.{are_allowed, memory_stored};
ghost use Rattle.rv_model.specs.declared.memory.Access.TheVariants.{Load, Store};
ghost use Rattle.rv_model.specs.memory.Memory.{Memory, can_access, put_bytes};
ghost use Rattle.rv_model.specs.vector.Groups.{width_bytes};
ghost use Rattle.vector_memory.specs.Lent.{IsIndexLoaded};
ghost use Rattle.vector_memory.specs.SegmentRoom.{HasRoom, place_in, segment_transfers};

use crate::segments::Segments;
use crate::spans::copy_lane;
use lane_arith::Lane;
use rv_model::VFile;

/// The number of times in a row that memory is asked to lend bytes and these contain at most one segment. Then segments
/// are far apart, and are loaded or stored one by one.
pub(crate) const TRIES: usize = 2;

/// Return how often memory is still asked to lend bytes, after the segments from `index` up to `next` were moved.
#[inline(always)]
pub(crate) fn tries_after(tries: usize, index: usize, next: usize) -> usize
    requires { index < next }
    ensures { result ≤ max tries TRIES }
{
    if index + 1 < next {
        TRIES
    } else {
        tries.saturating_sub(1)
    }
}

/// Return the number of places in these bytes at which `size` bytes, or one if that is more, begin.
#[inline(always)]
fn places(bytes: &[u8], size: usize) -> usize
    ensures inside { (k : ℕ) → k < result → k + size ≤ length bytes.now }
    ensures most { result ≤ length bytes.now }
{
    (bytes.len() + 1).saturating_sub(size.max(1))
}

/// Return the index of the `size` bytes from an address on, if lent bytes contain them: those from the address `first`
/// on.
#[inline(always)]
fn offset_in(first: u64, bytes: &[u8], address: u64, size: usize) -> Option<usize>
    requires end { first + length bytes.now ≤ 2 ^ 64 }
    ensures at { IfSome result (λ offset. address ≡ first + offset) }
    ensures inside { IfSome result (λ offset. offset + size ≤ length bytes.now) }
{
    let offset = address.wrapping_sub(first) as usize;
    if offset < places(bytes, size) {
        Some(offset)
    } else {
        None
    }
}

impl Segments {
    /// Load the fields of an index from lent bytes, if they contain all of them. Return whether they do.
    #[inline(always)]
    pub(crate) fn read_lent<L: Lane>(
        &self,
        bytes: &[u8],
        first: u64,
        address: u64,
        index: usize,
        file: &mut VFile,
    ) -> bool
        requires size { self.now.size ≡ width_bytes L.width }
        requires room { HasRoom self.now (index + 1) }
        requires end { first + length bytes.now ≤ 2 ^ 64 }
        ensures moved { result ≡ true → (m : Memory) → IsLent Load m first bytes.now
            → IsIndexLoaded m (place_in self.now) (segment_transfers self.now index address) file.old file.new }
        ensures unchanged { result ≡ false → file.new ≡ file.old }
    {
        let Some(offset) = offset_in(first, bytes, address, self.fields * self.size) else {
            return false;
        };
        for field in 0..self.fields {
            let at = offset + field * self.size;
            let place = self.place(index, field);
            copy_lane::<L>(
                &bytes[at..at + self.size],
                file.part_mut(place, place + self.size),
            );
        }
        true
    }

    /// Store the fields of an index to lent bytes, if they contain all of them. Return whether they do.
    #[inline(always)]
    pub(crate) fn write_lent<L: Lane>(
        &self,
        file: &VFile,
        index: usize,
        first: u64,
        address: u64,
        bytes: &mut [u8],
    ) -> bool
        requires size { self.now.size ≡ width_bytes L.width }
        requires room { HasRoom self.now (index + 1) }
        requires end { first + length bytes.old ≤ 2 ^ 64 }
        ensures allowed { result ≡ true → (m : Memory) → can_access Store m first (length bytes.old) ≡ true
            → are_allowed Store m (segment_transfers self.now index address) ≡ true }
        ensures value { result ≡ true → (m : Memory) → put_bytes m first bytes.new
            ≡ memory_stored (put_bytes m first bytes.old) (place_in self.now) file.now
            (segment_transfers self.now index address) }
        ensures unchanged { result ≡ false → bytes.new ≡ bytes.old }
    {
        let Some(offset) = offset_in(first, bytes, address, self.fields * self.size) else {
            return false;
        };
        for field in 0..self.fields {
            let at = offset + field * self.size;
            let place = self.place(index, field);
            copy_lane::<L>(
                file.part(place, place + self.size),
                &mut bytes[at..at + self.size],
            );
        }
        true
    }
}
