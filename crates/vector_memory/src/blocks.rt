//! A faster path for contiguous elements without masked-off ones: one copy moves them as a block of bytes
//! ("V" Vector Extension 1.0, sections 7.4 and 7.9). A function that returns `None` or `false` changes
//! nothing; the caller then uses the longer path.
ghost use Rattle.std.specs.Prelude.{◌≡◌, ◌+◌, ◌*◌, ◌%◌, ◌^◌, ◌≤◌, Bool, IfSome, List, false, length, true, ℕ};
ghost use Rattle.std.specs.Simd.Lanes.{chunk, put_chunk};
ghost use Rattle.rv_model.specs.declared.memory.Access.TheVariants.{Load, Store};
ghost use Rattle.rv_model.specs.declared.step.memory_end.MemEnd.TheVariants.{Done};
ghost use Rattle.rv_model.specs.memory.Memory.{bytes_at, can_access, put_bytes};
ghost use Rattle.vector_memory.specs.Blocks.{IsBlock};
ghost use Rattle.vector_memory.specs.Distances.{Fits, transfer_run};
ghost use Rattle.vector_memory.specs.Runs.{RunLeaves};
ghost use Rattle.vector_memory.specs.SegmentRoom.{HasRoom};
ghost use Rattle.vector_memory.specs.SpanAccess.{span_access};

use crate::spans::Span;
use crate::transfers::Transfer;
use crate::user_bytes::UserBytes;
use rv_model::instructions::operations::UnitOp;
use rv_model::{Access, FILE_BYTES, GROUP_BYTES, VFile, VLENB, VState};

/// A block of `length` bytes: its address in memory, and its place in the register file.
#[derive(Clone, Copy)]
pub(crate) struct Block {
    pub address: u64,
    pub place: usize,
    pub length: usize,
}

impl Block {
    /// Load the block, if each of its bytes may be loaded. Return whether it was loaded.
    #[inline(always)]
    pub(crate) fn load<M: UserBytes>(&self, memory: &M, file: &mut VFile) -> bool
        requires { self.now.place + self.now.length ≤ FILE_BYTES }
        ensures allowed { result ≡ true
            → can_access Load (M.memory memory.now) self.now.address self.now.length ≡ true }
        ensures value { result ≡ true → file.new ≡ put_chunk self.now.place file.old
            (bytes_at (M.memory memory.now) self.now.address self.now.length) }
        ensures unchanged { result ≡ false → file.new ≡ file.old }
    {
        let bytes = file.part_mut(self.place, self.place + self.length);
        memory.read(self.address, Access::Load, bytes).is_ok()
    }

    /// Store the block, if each of its bytes may be stored. Return whether it was stored.
    #[inline(always)]
    pub(crate) fn store<M: UserBytes>(&self, file: &VFile, memory: &mut M) -> bool
        requires { self.now.place + self.now.length ≤ FILE_BYTES }
        ensures allowed { result ≡ true
            → can_access Store (M.memory memory.old) self.now.address self.now.length ≡ true }
        ensures value { result ≡ true → M.memory memory.new ≡ put_bytes (M.memory memory.old) self.now.address
            (chunk self.now.place self.now.length file.now) }
        ensures whole { length (chunk self.now.place self.now.length file.now) ≡ self.now.length }
        ensures others { result ≡ true → memory.new ≡ M.with_memory memory.old (M.memory memory.new) }
        ensures unchanged { result ≡ false → memory.new ≡ memory.old }
    {
        let bytes = file.part(self.place, self.place + self.length);
        memory.write(self.address, Access::Store, bytes).is_ok()
    }
}

impl Transfer {
    /// Return the whole transfer as a block, whose bytes are in the same order in memory and in the
    /// registers. `None` if it doesn't start at index 0, has more than `limit` indices, or has masked-off or
    /// separate elements.
    #[inline(always)]
    fn block(&self, start: u8, limit: usize) -> Option<Block>
        requires room { HasRoom self.now.segments self.now.count }
        requires count { self.now.count ≤ GROUP_BYTES }
        ensures first { IfSome result (λ block. start ≡ 0) }
        ensures reach { IfSome result (λ block. self.now.count ≤ limit) }
        ensures value { IfSome result (λ block. (mask : List ℕ) → IsBlock self.now.segments
            (record { unmasked = self.now.unmasked; mask = mask; start = start; end = self.now.count })
            (λ i. (self.now.addresses.base + i * self.now.addresses.stride) % 2 ^ 64) self.now.count block) }
        ensures inside { IfSome result (λ block. block.place + block.length ≤ FILE_BYTES) }
    {
        let size = self.segments.size;
        if !self.unmasked || self.segments.fields != 1 || self.addresses.stride != size as u64 {
            return None;
        }
        if start != 0 || limit < self.count {
            return None;
        }
        let length = self.count * size;
        self.addresses.base.checked_add(length as u64)?;
        Some(Block {
            address: self.addresses.base,
            place: VLENB * self.segments.register.number() as usize,
            length,
        })
    }

    /// Execute all of it at once, if it is a block and each byte of the block may be loaded or stored. Return
    /// whether it is done.
    #[inline(always)]
    pub(crate) fn run_block<M: UserBytes>(
        &self,
        limit: usize,
        memory: &mut M,
        state: &mut VState,
    ) -> bool
        requires { Fits state.old self.now }
        ensures done { result ≡ true → (fill : Bool)
            → RunLeaves (transfer_run limit fill self.now state.old (M.memory memory.old))
            Done state.new (M.memory memory.new) }
        ensures others { memory.new ≡ M.with_memory memory.old (M.memory memory.new) }
        ensures unchanged_state { result ≡ false → state.new ≡ state.old }
        ensures unchanged_memory { result ≡ false → memory.new ≡ memory.old }
    {
        let Some(block) = self.block(state.vstart, limit) else {
            return false;
        };
        match self.op {
            UnitOp::Load => block.load(memory, &mut state.file),
            UnitOp::FaultOnlyFirst => block.load(memory, &mut state.file),
            UnitOp::Store => block.store(&state.file, memory),
        }
    }
}

impl Span<'_> {
    /// Return its bytes as a block, if its elements are contiguous elements of one field and none is masked
    /// off.
    #[inline(always)]
    pub(crate) fn block(&self) -> Option<Block>
        ensures value { IfSome result
            (IsBlock self.now.segments self.now.body (span_access self.now).address self.now.stop) }
        ensures address { IfSome result (λ block. block.address ≡ self.now.address) }
        ensures length { IfSome result (λ block. block.length ≡ self.now.length) }
    {
        if !self.body.is_unmasked() || !self.segments.are_contiguous(self.distance) {
            return None;
        }
        Some(Block {
            address: self.address,
            place: self.segments.place(self.body.start(), 0),
            length: self.length,
        })
    }
}
