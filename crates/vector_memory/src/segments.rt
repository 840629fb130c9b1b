//! One segment: the fields of one index ("V" Vector Extension 1.0, section 7.8).
ghost use Rattle.std.specs.Prelude.{◌≡◌, ◌↔◌, ◌+◌, ◌*◌, ◌%◌, ◌^◌, ◌≤◌, ◌<◌, ℕ, true, IsOk, IfErr, OnOk, OnErr};
ghost use Rattle.rv_model.specs.accesses.Transfers.{are_allowed, bad_address, registers_loaded};
ghost use Rattle.rv_model.specs.accesses.VectorAccess.{filled_segment};
ghost use Rattle.rv_model.specs.memory.Memory.{Memory};
ghost use Rattle.vector_memory.specs.Moves.{AllLoaded, AllStored};
ghost use Rattle.vector_memory.specs.SegmentRoom.{HasRoom, place_in, segment_transfers};

use crate::user_bytes::UserBytes;
use rv_model::{Access, FILE_BYTES, Fault, VFile, VLENB, VReg};

/// Segments of a load or store: the number of fields and their size in bytes, the first register of the first
/// field, and the number of registers of each field.
#[derive(Clone, Copy)]
pub(crate) struct Segments {
    pub fields: usize,
    pub size: usize,
    pub register: VReg,
    pub field_registers: usize,
}

impl Segments {
    /// Check whether segments at this distance are contiguous elements of one field.
    #[inline(always)]
    pub(crate) fn are_contiguous(&self, distance: usize) -> bool
        ensures { (result ≡ true) ↔ ((self.now.fields ≡ 1) × (distance ≡ self.now.size)) }
    {
        self.fields == 1 && distance == self.size
    }

    /// Return the first byte of an element in the register file.
    #[inline(always)]
    pub(crate) fn place(&self, index: usize, field: usize) -> usize
        requires room { HasRoom self.now (index + 1) }
        requires field { field < self.now.fields }
        ensures value { result
            ≡ VLENB * (self.now.register + field * self.now.field_registers) + index * self.now.size }
        ensures inside { result + self.now.size ≤ FILE_BYTES }
    {
        let register = self.register.number() as usize + field * self.field_registers;
        VLENB * register + index * self.size
    }

    /// Return the address of a field, from the address of its segment, modulo 2 ^ 64.
    pub(crate) fn field_address(&self, address: u64, field: usize) -> u64
        requires size { self.now.size ≤ 8 }
        requires field { field < 8 }
        ensures { result ≡ (address + field * self.now.size) % 2 ^ 64 }
    {
        address.wrapping_add((field * self.size) as u64)
    }

    /// Check whether each field of a segment may be accessed; if not, return the address of the first that
    /// may not.
    pub(crate) fn check<M: UserBytes>(
        &self,
        memory: &M,
        access: Access,
        address: u64,
    ) -> Result<(), Fault>
        requires size { self.now.size ≤ 8 }
        requires fields { self.now.fields ≤ 8 }
        ensures ok { (index : ℕ) → IsOk result
            ↔ (are_allowed access (M.memory memory.now) (segment_transfers self.now index address) ≡ true) }
        ensures fault { (index : ℕ) → IfErr result (λ fault. fault.addr
            ≡ bad_address access (M.memory memory.now) (segment_transfers self.now index address)) }
    {
        for field in 0..self.fields {
            memory.check(self.field_address(address, field), self.size, access)?;
        }
        Ok(())
    }

    /// Load the fields of a segment, if each may be loaded; if not, return the address of the first that may
    /// not.
    #[inline(never)]
    pub(crate) fn load<M: UserBytes>(
        &self,
        memory: &M,
        address: u64,
        index: usize,
        file: &mut VFile,
    ) -> Result<(), Fault>
        requires room { HasRoom self.now (index + 1) }
        ensures { AllLoaded (M.memory memory.now) (place_in self.now) (segment_transfers self.now index address)
            file.old result file.new }
    {
        self.check(memory, Access::Load, address)?;
        for field in 0..self.fields {
            let at = self.place(index, field);
            let bytes = file.part_mut(at, at + self.size);
            let _ = memory.read(self.field_address(address, field), Access::Load, bytes);
        }
        Ok(())
    }

    /// Set the fields of an index to all ones.
    pub(crate) fn fill(&self, index: usize, file: &mut VFile)
        requires room { HasRoom self.now (index + 1) }
        ensures { (memory : Memory) → file.new ≡ registers_loaded memory (place_in self.now) file.old
            (filled_segment index self.now.size self.now.fields) }
    {
        for field in 0..self.fields {
            let at = self.place(index, field);
            file.part_mut(at, at + self.size)
                .copy_from_slice(&[0xff; 8][..self.size]);
        }
    }

    /// Store the fields of a segment, if each may be stored; if not, return the address of the first that may
    /// not.
    #[inline(never)]
    pub(crate) fn store<M: UserBytes>(
        &self,
        file: &VFile,
        address: u64,
        index: usize,
        memory: &mut M,
    ) -> Result<(), Fault>
        requires room { HasRoom self.now (index + 1) }
        ensures stored { AllStored (place_in self.now) file.now (segment_transfers self.now index address)
            (M.memory memory.old) result (M.memory memory.new) }
        ensures others { OnOk result (memory.new ≡ M.with_memory memory.old (M.memory memory.new)) }
        ensures unchanged { OnErr result (memory.new ≡ memory.old) }
    {
        self.check(memory, Access::Store, address)?;
        for field in 0..self.fields {
            let at = self.place(index, field);
            let bytes = file.part(at, at + self.size);
            let _ = memory.write(self.field_address(address, field), Access::Store, bytes);
        }
        Ok(())
    }
}
