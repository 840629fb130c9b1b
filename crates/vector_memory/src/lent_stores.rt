//! A faster path for stores at a stride or at offsets ("V" Vector Extension 1.0, sections 7.5, 7.6 and 7.8). Memory
//! passes the bytes around a segment, mostly those of its page, to an edit, which copies to them the segments that they
//! contain, in order. The other segments are stored as in `stores`.
ghost use Rattle.std.specs.Prelude.{◌≡◌, ◌+◌, ◌^◌, ◌<◌, ◌≤◌, false, length, max, true};
ghost use Rattle.lent_bytes.specs.Lent.{IsLent};
ghost use Rattle.rv_model.specs.accesses.Transfers.{are_allowed, memory_stored};
ghost use Rattle.rv_model.specs.accesses.VectorAccess.{plan};
ghost use Rattle.rv_model.specs.declared.memory.Access.TheVariants.{Store};
ghost use Rattle.rv_model.specs.memory.Memory.{Memory, can_access, put_bytes};
ghost use Rattle.rv_model.specs.vector.Groups.{width_bytes};
ghost use Rattle.vector_memory.specs.Lent.{AreStoredUpTo};
ghost use Rattle.vector_memory.specs.SegmentRoom.{place_in, segments_access};

use crate::addresses::Addresses;
use crate::lent::{TRIES, tries_after};
use crate::moves::Moves;
use crate::user_bytes::UserBytes;
use lane_arith::Lane;
use lent_bytes::Edit;
use rv_model::{PAGE_SIZE, VFile};

impl<A: Addresses> Moves<'_, A> {
    /// Store the segment of one index to lent bytes, if it is active. Return `false`, and change nothing, if it is
    /// active and these bytes don't contain it.
    #[inline(always)]
    fn store_lent_index<L: Lane>(
        &self,
        file: &VFile,
        first: u64,
        index: usize,
        bytes: &mut [u8],
    ) -> bool
        requires size { self.now.segments.size ≡ width_bytes L.width }
        requires index { index < self.now.body.end }
        requires end { first + length bytes.old ≤ 2 ^ 64 }
        ensures allowed { result ≡ true → (m : Memory) → can_access Store m first (length bytes.old) ≡ true
            → are_allowed Store m
            (plan (segments_access self.now.segments self.now.body (A.address self.now.addresses)) false index) ≡ true }
        ensures value { result ≡ true → (m : Memory) → put_bytes m first bytes.new
            ≡ memory_stored (put_bytes m first bytes.old) (place_in self.now.segments) file.now
            (plan (segments_access self.now.segments self.now.body (A.address self.now.addresses)) false index) }
        ensures unchanged { result ≡ false → bytes.new ≡ bytes.old }
    {
        if self.body.is_enabled(index) {
            let address = self.addresses.address(index);
            return self
                .segments
                .write_lent::<L>(file, index, first, address, bytes);
        }
        true
    }

    /// Store the segments of the indices from `from` on, up to the first active one that lent bytes don't contain.
    /// Return its index, or `stop`.
    #[inline(always)]
    fn store_lent<L: Lane>(
        &self,
        file: &VFile,
        first: u64,
        from: usize,
        stop: usize,
        bytes: &mut [u8],
    ) -> usize
        requires size { self.now.segments.size ≡ width_bytes L.width }
        requires order { from ≤ stop }
        requires stop { stop ≤ self.now.body.end }
        requires end { first + length bytes.old ≤ 2 ^ 64 }
        ensures { (m : Memory) → IsLent Store m first bytes.old
            → AreStoredUpTo (place_in self.now.segments) file.now
            (plan (segments_access self.now.segments self.now.body (A.address self.now.addresses)) false)
            from stop m result (put_bytes m first bytes.new) }
    {
        for index in from..stop {
            if !self.store_lent_index::<L>(file, first, index, bytes) {
                return index;
            }
        }
        stop
    }

    /// Store segments of one field as `store_lent` does.
    #[inline(never)]
    fn store_lent_elements<L: Lane>(
        &self,
        file: &VFile,
        first: u64,
        from: usize,
        stop: usize,
        bytes: &mut [u8],
    ) -> usize
        requires one { self.now.segments.fields ≡ 1 }
        requires size { self.now.segments.size ≡ width_bytes L.width }
        requires order { from ≤ stop }
        requires stop { stop ≤ self.now.body.end }
        requires end { first + length bytes.old ≤ 2 ^ 64 }
        ensures { (m : Memory) → IsLent Store m first bytes.old
            → AreStoredUpTo (place_in self.now.segments) file.now
            (plan (segments_access self.now.segments self.now.body (A.address self.now.addresses)) false)
            from stop m result (put_bytes m first bytes.new) }
    {
        self.counted(1, L::bits() as usize / 8)
            .store_lent::<L>(file, first, from, stop, bytes)
    }

    /// Store segments of any number of fields as `store_lent` does.
    #[inline(never)]
    fn store_lent_fields<L: Lane>(
        &self,
        file: &VFile,
        first: u64,
        from: usize,
        stop: usize,
        bytes: &mut [u8],
    ) -> usize
        requires size { self.now.segments.size ≡ width_bytes L.width }
        requires order { from ≤ stop }
        requires stop { stop ≤ self.now.body.end }
        requires end { first + length bytes.old ≤ 2 ^ 64 }
        ensures { (m : Memory) → IsLent Store m first bytes.old
            → AreStoredUpTo (place_in self.now.segments) file.now
            (plan (segments_access self.now.segments self.now.body (A.address self.now.addresses)) false)
            from stop m result (put_bytes m first bytes.new) }
    {
        self.counted(self.segments.fields, L::bits() as usize / 8)
            .store_lent::<L>(file, first, from, stop, bytes)
    }

    /// Store the segments of the indices from `from` on as `store_lent` does, by their number of fields.
    #[inline(always)]
    fn store_lent_lanes<L: Lane>(
        &self,
        file: &VFile,
        first: u64,
        from: usize,
        stop: usize,
        bytes: &mut [u8],
    ) -> usize
        requires size { self.now.segments.size ≡ width_bytes L.width }
        requires order { from ≤ stop }
        requires stop { stop ≤ self.now.body.end }
        requires end { first + length bytes.old ≤ 2 ^ 64 }
        ensures { (m : Memory) → IsLent Store m first bytes.old
            → AreStoredUpTo (place_in self.now.segments) file.now
            (plan (segments_access self.now.segments self.now.body (A.address self.now.addresses)) false)
            from stop m result (put_bytes m first bytes.new) }
    {
        if self.segments.fields == 1 {
            return self.store_lent_elements::<L>(file, first, from, stop, bytes);
        }
        self.store_lent_fields::<L>(file, first, from, stop, bytes)
    }

    /// Store the segments of the indices from `from` on as `store_lent` does, by the size of a field.
    #[inline(always)]
    fn store_lent_sized(
        &self,
        file: &VFile,
        first: u64,
        from: usize,
        stop: usize,
        bytes: &mut [u8],
    ) -> usize
        requires order { from ≤ stop }
        requires stop { stop ≤ self.now.body.end }
        requires end { first + length bytes.old ≤ 2 ^ 64 }
        ensures { (m : Memory) → IsLent Store m first bytes.old
            → AreStoredUpTo (place_in self.now.segments) file.now
            (plan (segments_access self.now.segments self.now.body (A.address self.now.addresses)) false)
            from stop m result (put_bytes m first bytes.new) }
    {
        match self.segments.size {
            1 => self.store_lent_lanes::<u8>(file, first, from, stop, bytes),
            2 => self.store_lent_lanes::<u16>(file, first, from, stop, bytes),
            4 => self.store_lent_lanes::<u32>(file, first, from, stop, bytes),
            8 => self.store_lent_lanes::<u64>(file, first, from, stop, bytes),
            _ => from,
        }
    }
}

/// A store of the segments of the indices from `from` up to `stop`.
#[derive(Drop)]
struct PartStore<'a, A: Addresses> {
    moves: &'a Moves<'a, A>,
    file: &'a VFile,
    from: usize,
    stop: usize,
    ghost order: { from ≤ stop },
    ghost most: { stop ≤ moves.now.body.end },
}

impl<A: Addresses> Edit for PartStore<'_, A> {
    ghost changes = { λ e m next new. AreStoredUpTo (place_in e.moves.now.segments) e.file.now
        (plan (segments_access e.moves.now.segments e.moves.now.body (A.address e.moves.now.addresses)) false)
        e.from e.stop m next new };

    /// Store the segments to these bytes, as `store_lent` does. Return the index after them.
    #[inline(always)]
    fn edit(&self, first: u64, bytes: &mut [u8]) -> usize {
        self.moves
            .store_lent_sized(self.file, first, self.from, self.stop, bytes)
    }
}

impl<A: Addresses> Moves<'_, A> {
    /// Store the segments of the indices from `from` on that are in the bytes which memory lends around the first, up
    /// to the first active one that isn't. Return its index, or `stop`.
    #[inline(always)]
    fn store_near<M: UserBytes>(
        &self,
        file: &VFile,
        from: usize,
        stop: usize,
        memory: &mut M,
    ) -> usize
        requires order { from < stop }
        requires stop { stop ≤ self.now.body.end }
        ensures stored { AreStoredUpTo (place_in self.now.segments) file.now
            (plan (segments_access self.now.segments self.now.body (A.address self.now.addresses)) false)
            from stop (M.memory memory.old) result (M.memory memory.new) }
        ensures others { memory.new ≡ M.with_memory memory.old (M.memory memory.new) }
    {
        let address = self.addresses.address(from);
        let part = PartStore {
            moves: self,
            file,
            from,
            stop,
        };
        match memory.edit(address - address % PAGE_SIZE, &part) {
            Some(next) => next,
            None => from,
        }
    }

    /// Store the segment of one index and those after it that memory lends with it. Return the index after them; that
    /// is `index` if its segment may not be stored.
    #[inline(always)]
    fn store_some<M: UserBytes>(
        &self,
        file: &VFile,
        index: usize,
        stop: usize,
        memory: &mut M,
    ) -> usize
        requires order { index < stop }
        requires stop { stop ≤ self.now.body.end }
        ensures stored { AreStoredUpTo (place_in self.now.segments) file.now
            (plan (segments_access self.now.segments self.now.body (A.address self.now.addresses)) false)
            index stop (M.memory memory.old) result (M.memory memory.new) }
        ensures others { memory.new ≡ M.with_memory memory.old (M.memory memory.new) }
    {
        let next = self.store_near(file, index, stop, memory);
        if next == index && self.store_index(file, index, memory).is_ok() {
            return index + 1;
        }
        next
    }

    /// Store the segments of the first indices in order, as long as memory lends bytes that contain more than one. Return
    /// the index of the first segment that isn't stored, or `stop`.
    #[inline(always)]
    pub(crate) fn store_by_page<M: UserBytes>(
        &self,
        file: &VFile,
        stop: usize,
        memory: &mut M,
    ) -> usize
        requires stop { stop ≤ self.now.body.end }
        ensures stored { AreStoredUpTo (place_in self.now.segments) file.now
            (plan (segments_access self.now.segments self.now.body (A.address self.now.addresses)) false)
            self.now.body.start (max self.now.body.start stop) (M.memory memory.old) result (M.memory memory.new) }
        ensures others { memory.new ≡ M.with_memory memory.old (M.memory memory.new) }
    {
        let mut index = self.body.start();
        let mut tries = TRIES;
        while index < stop && 0 < tries {
            let next = self.store_some(file, index, stop, memory);
            if next == index {
                return index;
            }
            tries = tries_after(tries, index, next);
            index = next;
        }
        index
    }
}
