//! Loads, index by index ("V" Vector Extension 1.0, sections 7.4 to 7.9 and 17.1).
ghost use Rattle.std.specs.Prelude.{◌<◌};
ghost use Rattle.rv_model.specs.accesses.VectorAccess.{plan};
ghost use Rattle.vector_memory.specs.Moves.{AllLoaded, IsLoaded};
ghost use Rattle.vector_memory.specs.SegmentRoom.{StopsBefore, segments_access, place_in};

use crate::addresses::Addresses;
use crate::ends::end_without_fault;
use crate::field_bytes::load_bytes;
use crate::moves::Moves;
use crate::runs::Extent;
use crate::user_bytes::UserBytes;
use rv_model::{Fault, MemEnd, VFile};

impl<A: Addresses> Moves<'_, A> {
    /// Load the segment of one index, if it is active and each of its bytes may be loaded. With `fill`, a
    /// masked-off segment becomes all ones.
    #[inline(always)]
    pub(crate) fn load_index<M: UserBytes>(
        &self,
        memory: &M,
        fill: bool,
        index: usize,
        file: &mut VFile,
    ) -> Result<(), Fault>
        requires { index < self.now.body.end }
        ensures { AllLoaded (M.memory memory.now) (place_in self.now.segments)
            (plan (segments_access self.now.segments self.now.body (A.address self.now.addresses)) fill index)
            file.old result file.new }
    {
        if self.body.is_enabled(index) {
            let address = self.addresses.address(index);
            if self.segments.fields == 1 {
                let place = self.segments.place(index, 0);
                return load_bytes(memory, address, place, self.segments.size, file);
            }
            return self.segments.load(memory, address, index, file);
        } else if fill {
            self.segments.fill(index, file);
        }
        Ok(())
    }

    /// Load the indices in order, up to the first whose segment may not be loaded.
    #[inline(never)]
    fn load_each<M: UserBytes>(&self, memory: &M, extent: Extent, file: &mut VFile) -> MemEnd
        ensures loaded { IsLoaded extent.limit extent.fill_masked_off
            (segments_access self.now.segments self.now.body (A.address self.now.addresses))
            (M.memory memory.now) file.old result file.new }
        ensures least { StopsBefore self.now.body.end result }
    {
        let fill = extent.fill_masked_off;
        let stop = self.stop(extent.limit);
        for index in self.load_by_page(memory, fill, stop, file)..stop {
            if let Err(fault) = self.load_index(memory, fill, index, file) {
                return MemEnd::Fault {
                    index,
                    addr: fault.addr,
                };
            }
        }
        end_without_fault(stop, self.body.end())
    }

    /// Load the indices, up to the first whose segment may not be loaded. They are loaded at once if they are
    /// close together and all bytes between them may be loaded.
    #[inline(always)]
    pub(crate) fn load<M: UserBytes>(&self, memory: &M, extent: Extent, file: &mut VFile) -> MemEnd
        ensures loaded { IsLoaded extent.limit extent.fill_masked_off
            (segments_access self.now.segments self.now.body (A.address self.now.addresses))
            (M.memory memory.now) file.old result file.new }
        ensures least { StopsBefore self.now.body.end result }
    {
        let stop = self.stop(extent.limit);
        if let Some(span) = self.span(stop)
            && span.load(memory, extent.fill_masked_off, file)
        {
            return end_without_fault(stop, self.body.end());
        }
        self.copied().load_each(memory, extent, file)
    }
}
