//! Stores, index by index ("V" Vector Extension 1.0, sections 7.4 to 7.9 and 17.1).
ghost use Rattle.std.specs.Prelude.{◌≡◌, ◌<◌, false, OnOk, OnErr};
ghost use Rattle.rv_model.specs.accesses.VectorAccess.{plan};
ghost use Rattle.vector_memory.specs.Moves.{AllStored, IsStored};
ghost use Rattle.vector_memory.specs.SegmentRoom.{StopsBefore, segments_access, place_in};

use crate::addresses::Addresses;
use crate::ends::end_without_fault;
use crate::field_bytes::store_bytes;
use crate::moves::Moves;
use crate::user_bytes::UserBytes;
use rv_model::{Fault, MemEnd, VFile};

impl<A: Addresses> Moves<'_, A> {
    /// Store the segment of one index, if it is active and each of its bytes may be stored.
    #[inline(always)]
    pub(crate) fn store_index<M: UserBytes>(
        &self,
        file: &VFile,
        index: usize,
        memory: &mut M,
    ) -> Result<(), Fault>
        requires { index < self.now.body.end }
        ensures stored { AllStored (place_in self.now.segments) file.now
            (plan (segments_access self.now.segments self.now.body (A.address self.now.addresses)) false index)
            (M.memory memory.old) result (M.memory memory.new) }
        ensures others { OnOk result (memory.new ≡ M.with_memory memory.old (M.memory memory.new)) }
        ensures unchanged { OnErr result (memory.new ≡ memory.old) }
    {
        if self.body.is_enabled(index) {
            let address = self.addresses.address(index);
            if self.segments.fields == 1 {
                let place = self.segments.place(index, 0);
                return store_bytes(file, place, self.segments.size, address, memory);
            }
            return self.segments.store(file, address, index, memory);
        }
        Ok(())
    }

    /// Store the indices in order, at most `limit` of them, up to the first whose segment may not be stored.
    #[inline(never)]
    fn store_each<M: UserBytes>(&self, file: &VFile, limit: usize, memory: &mut M) -> MemEnd
        ensures stored { IsStored limit
            (segments_access self.now.segments self.now.body (A.address self.now.addresses)) file.now
            (M.memory memory.old) result (M.memory memory.new) }
        ensures least { StopsBefore self.now.body.end result }
        ensures others { memory.new ≡ M.with_memory memory.old (M.memory memory.new) }
    {
        let stop = self.stop(limit);
        for index in self.store_by_page(file, stop, memory)..stop {
            if let Err(fault) = self.store_index(file, index, memory) {
                return MemEnd::Fault {
                    index,
                    addr: fault.addr,
                };
            }
        }
        end_without_fault(stop, self.body.end())
    }

    /// Store the indices, at most `limit` of them, up to the first whose segment may not be stored. They are
    /// stored at once if they are close together and all bytes between them may be stored.
    #[inline(always)]
    pub(crate) fn store<M: UserBytes>(&self, file: &VFile, limit: usize, memory: &mut M) -> MemEnd
        ensures stored { IsStored limit
            (segments_access self.now.segments self.now.body (A.address self.now.addresses)) file.now
            (M.memory memory.old) result (M.memory memory.new) }
        ensures least { StopsBefore self.now.body.end result }
        ensures others { memory.new ≡ M.with_memory memory.old (M.memory memory.new) }
    {
        let stop = self.stop(limit);
        if let Some(span) = self.span(stop)
            && span.store(file, memory)
        {
            return end_without_fault(stop, self.body.end());
        }
        self.copied().store_each(file, limit, memory)
    }
}
