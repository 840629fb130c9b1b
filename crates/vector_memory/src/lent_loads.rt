//! A faster path for loads at a stride or at offsets ("V" Vector Extension 1.0, sections 7.5, 7.6 and 7.8). Memory
//! lends the bytes around a segment, mostly those of its page, and the segments in these bytes are copied without
//! asking for each. The other segments are loaded as in `loads`.
ghost use Rattle.std.specs.Prelude.{◌≡◌, ◌+◌, ◌^◌, ◌<◌, ◌≤◌, false, length, max, true};
ghost use Rattle.lent_bytes.specs.Lent.{IsLent};
ghost use Rattle.rv_model.specs.accesses.VectorAccess.{plan};
ghost use Rattle.rv_model.specs.declared.memory.Access.TheVariants.{Load};
ghost use Rattle.rv_model.specs.memory.Memory.{Memory};
ghost use Rattle.rv_model.specs.vector.Groups.{width_bytes};
ghost use Rattle.vector_memory.specs.Lent.{ArePartLoaded, IsIndexLoaded};
ghost use Rattle.vector_memory.specs.SegmentRoom.{place_in, segments_access};

use crate::addresses::Addresses;
use crate::lent::{TRIES, tries_after};
use crate::moves::Moves;
use crate::user_bytes::UserBytes;
use lane_arith::Lane;
use rv_model::{Access, PAGE_SIZE, VFile};

impl<A: Addresses> Moves<'_, A> {
    /// Load the segment of one index from lent bytes, if it is active; with `fill`, a masked-off segment becomes all
    /// ones. Return `false`, and change nothing, if it is active and these bytes don't contain it.
    #[inline(always)]
    fn load_lent_index<L: Lane>(
        &self,
        bytes: &[u8],
        first: u64,
        fill: bool,
        index: usize,
        file: &mut VFile,
    ) -> bool
        requires size { self.now.segments.size ≡ width_bytes L.width }
        requires index { index < self.now.body.end }
        requires end { first + length bytes.now ≤ 2 ^ 64 }
        ensures moved { result ≡ true → (m : Memory) → IsLent Load m first bytes.now
            → IsIndexLoaded m (place_in self.now.segments)
            (plan (segments_access self.now.segments self.now.body (A.address self.now.addresses)) fill index)
            file.old file.new }
        ensures unchanged { result ≡ false → file.new ≡ file.old }
    {
        if self.body.is_enabled(index) {
            let address = self.addresses.address(index);
            return self
                .segments
                .read_lent::<L>(bytes, first, address, index, file);
        } else if fill {
            self.segments.fill(index, file);
        }
        true
    }

    /// Load the segments of the indices from `from` on, up to the first active one that lent bytes don't contain.
    /// Return its index, or `stop`.
    #[inline(always)]
    fn load_lent<L: Lane>(
        &self,
        bytes: &[u8],
        first: u64,
        fill: bool,
        from: usize,
        stop: usize,
        file: &mut VFile,
    ) -> usize
        requires size { self.now.segments.size ≡ width_bytes L.width }
        requires order { from ≤ stop }
        requires stop { stop ≤ self.now.body.end }
        requires end { first + length bytes.now ≤ 2 ^ 64 }
        ensures order { from ≤ result }
        ensures most { result ≤ stop }
        ensures loaded { (m : Memory) → IsLent Load m first bytes.now
            → ArePartLoaded m (place_in self.now.segments)
            (plan (segments_access self.now.segments self.now.body (A.address self.now.addresses)) fill)
            from result file.old file.new }
    {
        for index in from..stop {
            if !self.load_lent_index::<L>(bytes, first, fill, index, file) {
                return index;
            }
        }
        stop
    }

    /// Load segments of one field as `load_lent` does.
    #[inline(never)]
    fn load_lent_elements<L: Lane>(
        &self,
        bytes: &[u8],
        first: u64,
        fill: bool,
        from: usize,
        stop: usize,
        file: &mut VFile,
    ) -> usize
        requires one { self.now.segments.fields ≡ 1 }
        requires size { self.now.segments.size ≡ width_bytes L.width }
        requires order { from ≤ stop }
        requires stop { stop ≤ self.now.body.end }
        requires end { first + length bytes.now ≤ 2 ^ 64 }
        ensures order { from ≤ result }
        ensures most { result ≤ stop }
        ensures loaded { (m : Memory) → IsLent Load m first bytes.now
            → ArePartLoaded m (place_in self.now.segments)
            (plan (segments_access self.now.segments self.now.body (A.address self.now.addresses)) fill)
            from result file.old file.new }
    {
        self.counted(1, L::bits() as usize / 8)
            .load_lent::<L>(bytes, first, fill, from, stop, file)
    }

    /// Load segments of any number of fields as `load_lent` does.
    #[inline(never)]
    fn load_lent_fields<L: Lane>(
        &self,
        bytes: &[u8],
        first: u64,
        fill: bool,
        from: usize,
        stop: usize,
        file: &mut VFile,
    ) -> usize
        requires size { self.now.segments.size ≡ width_bytes L.width }
        requires order { from ≤ stop }
        requires stop { stop ≤ self.now.body.end }
        requires end { first + length bytes.now ≤ 2 ^ 64 }
        ensures order { from ≤ result }
        ensures most { result ≤ stop }
        ensures loaded { (m : Memory) → IsLent Load m first bytes.now
            → ArePartLoaded m (place_in self.now.segments)
            (plan (segments_access self.now.segments self.now.body (A.address self.now.addresses)) fill)
            from result file.old file.new }
    {
        self.counted(self.segments.fields, L::bits() as usize / 8)
            .load_lent::<L>(bytes, first, fill, from, stop, file)
    }

    /// Load the segments of the indices from `from` on as `load_lent` does, by their number of fields.
    #[inline(always)]
    fn load_lent_lanes<L: Lane>(
        &self,
        bytes: &[u8],
        first: u64,
        fill: bool,
        from: usize,
        stop: usize,
        file: &mut VFile,
    ) -> usize
        requires size { self.now.segments.size ≡ width_bytes L.width }
        requires order { from ≤ stop }
        requires stop { stop ≤ self.now.body.end }
        requires end { first + length bytes.now ≤ 2 ^ 64 }
        ensures order { from ≤ result }
        ensures most { result ≤ stop }
        ensures loaded { (m : Memory) → IsLent Load m first bytes.now
            → ArePartLoaded m (place_in self.now.segments)
            (plan (segments_access self.now.segments self.now.body (A.address self.now.addresses)) fill)
            from result file.old file.new }
    {
        if self.segments.fields == 1 {
            return self.load_lent_elements::<L>(bytes, first, fill, from, stop, file);
        }
        self.load_lent_fields::<L>(bytes, first, fill, from, stop, file)
    }

    /// Load the segments of the indices from `from` on as `load_lent` does, by the size of a field.
    #[inline(always)]
    fn load_lent_sized(
        &self,
        bytes: &[u8],
        first: u64,
        fill: bool,
        from: usize,
        stop: usize,
        file: &mut VFile,
    ) -> usize
        requires order { from ≤ stop }
        requires stop { stop ≤ self.now.body.end }
        requires end { first + length bytes.now ≤ 2 ^ 64 }
        ensures order { from ≤ result }
        ensures most { result ≤ stop }
        ensures loaded { (m : Memory) → IsLent Load m first bytes.now
            → ArePartLoaded m (place_in self.now.segments)
            (plan (segments_access self.now.segments self.now.body (A.address self.now.addresses)) fill)
            from result file.old file.new }
    {
        match self.segments.size {
            1 => self.load_lent_lanes::<u8>(bytes, first, fill, from, stop, file),
            2 => self.load_lent_lanes::<u16>(bytes, first, fill, from, stop, file),
            4 => self.load_lent_lanes::<u32>(bytes, first, fill, from, stop, file),
            8 => self.load_lent_lanes::<u64>(bytes, first, fill, from, stop, file),
            _ => from,
        }
    }

    /// Load the segments of the indices from `from` on that are in the bytes which memory lends around the first, up
    /// to the first active one that isn't. Return its index, or `stop`.
    #[inline(always)]
    fn load_near<M: UserBytes>(
        &self,
        memory: &M,
        fill: bool,
        from: usize,
        stop: usize,
        file: &mut VFile,
    ) -> usize
        requires order { from < stop }
        requires stop { stop ≤ self.now.body.end }
        ensures order { from ≤ result }
        ensures most { result ≤ stop }
        ensures loaded { ArePartLoaded (M.memory memory.now) (place_in self.now.segments)
            (plan (segments_access self.now.segments self.now.body (A.address self.now.addresses)) fill)
            from result file.old file.new }
    {
        let address = self.addresses.address(from);
        let first = address - address % PAGE_SIZE;
        let bytes = memory.lend(first, Access::Load);
        self.load_lent_sized(bytes, first, fill, from, stop, file)
    }

    /// Load the segment of one index and those after it that memory lends with it. Return the index after them; that
    /// is `index` if its segment may not be loaded.
    #[inline(always)]
    fn load_some<M: UserBytes>(
        &self,
        memory: &M,
        fill: bool,
        index: usize,
        stop: usize,
        file: &mut VFile,
    ) -> usize
        requires order { index < stop }
        requires stop { stop ≤ self.now.body.end }
        ensures order { index ≤ result }
        ensures most { result ≤ stop }
        ensures loaded { ArePartLoaded (M.memory memory.now) (place_in self.now.segments)
            (plan (segments_access self.now.segments self.now.body (A.address self.now.addresses)) fill)
            index result file.old file.new }
    {
        let next = self.load_near(memory, fill, index, stop, file);
        if next == index && self.load_index(memory, fill, index, file).is_ok() {
            return index + 1;
        }
        next
    }

    /// Load the segments of the first indices in order, as long as memory lends bytes that contain more than one. Return
    /// the index of the first segment that isn't loaded, or `stop`.
    #[inline(always)]
    pub(crate) fn load_by_page<M: UserBytes>(
        &self,
        memory: &M,
        fill: bool,
        stop: usize,
        file: &mut VFile,
    ) -> usize
        requires stop { stop ≤ self.now.body.end }
        ensures order { self.now.body.start ≤ result }
        ensures most { result ≤ max self.now.body.start stop }
        ensures loaded { ArePartLoaded (M.memory memory.now) (place_in self.now.segments)
            (plan (segments_access self.now.segments self.now.body (A.address self.now.addresses)) fill)
            self.now.body.start result file.old file.new }
    {
        let mut index = self.body.start();
        let mut tries = TRIES;
        while index < stop && 0 < tries {
            let next = self.load_some(memory, fill, index, stop, file);
            if next == index {
                return index;
            }
            tries = tries_after(tries, index, next);
            index = next;
        }
        index
    }
}
