//! The vector registers ("V" Vector Extension 1.0, section 3.1).
ghost use Rattle.std.specs.Prelude.{◌≡◌, ◌+◌, ◌≤◌, length, slice_range};
ghost use Rattle.std.specs.Borrow.{sem};

use crate::instructions::VReg;
use crate::vector::cells::Cells;
use crate::vector::register_bytes::RegisterBytes;
use crate::vector::sizes::{FILE_BYTES, VLENB};
use std::marker::Model;

/// The vector registers v0 to v31 of 32 bytes each, in order (section 3.1, VLEN 256).
#[derive(Drop)]
pub struct VFile {
    cells: Cells<FILE_BYTES>,
}

impl Model for VFile {
    ghost use Rattle.std.specs.Prelude.{List, ℕ, ◌≡◌, length};
    ghost use Rattle.rv_model.specs.declared.vector.sizes.TheConstants.{FILE_BYTES};

    ghost Value = { List ℕ };

    ghost view = { λ f. f.cells.bytes };

    ghost invariant = { λ f. length f.cells.bytes ≡ FILE_BYTES };
}

impl VFile {
    ghost use Rattle.rv_model.specs.lending.Files.{LendsFilePart};
    ghost use Rattle.rv_model.specs.vector.Groups.{register_of, with_register_bytes};
    ghost use Rattle.rv_model.specs.vector.State.{zero_file};

    /// Return a file with all registers zero.
    #[tactic(auto, unfolding(crate::specs::vector::State::zero_file))]
    pub fn new() -> VFile
        ensures { result ≡ zero_file }
    {
        VFile {
            cells: Cells {
                bytes: [0; FILE_BYTES],
            },
        }
    }

    /// Return the 32 bytes of a register.
    #[tactic(auto, unfolding(crate::specs::vector::Groups::register_of))]
    pub fn register(&self, register: VReg) -> &[u8]
        ensures value { result.now ≡ register_of self.now register }
        ensures size { length result.now ≡ VLENB }
    {
        let start = VLENB * register.number() as usize;
        self.part(start, start + VLENB)
    }

    /// Write the 32 bytes of a register; all others are unchanged.
    #[tactic(auto, unfolding(crate::specs::vector::Groups::with_register_bytes))]
    pub fn set_register(&mut self, register: VReg, bytes: &RegisterBytes)
        ensures { self.new ≡ with_register_bytes register bytes.now self.old }
    {
        let start = VLENB * register.number() as usize;
        self.part_mut(start, start + VLENB)
            .copy_from_slice(bytes.as_slice());
    }

    /// Copy the registers of another file.
    pub(crate) fn copy_from(&mut self, other: &VFile)
        ensures { self.new ≡ other.now }
    {
        self.cells.bytes = other.cells.bytes;
    }

    /// Return the bytes from index `from` up to but not including `to`; register r starts at byte 32 r.
    pub fn part(&self, from: usize, to: usize) -> &[u8]
        requires order { from ≤ to }
        requires inside { to ≤ FILE_BYTES }
        ensures value { result.now ≡ slice_range self.now from to }
        ensures len { length result.now + from ≡ to }
    {
        &self.cells.bytes[from..to]
    }

    /// Return the bytes from index `from` up to but not including `to`, for writing.
    pub fn part_mut(&mut self, from: usize, to: usize) -> &mut [u8]
        requires order { from ≤ to }
        requires inside { to ≤ FILE_BYTES }
        ensures* writes_back { sem 𝓛 (LendsFilePart self.entry from result) }
        ensures value { result.now ≡ slice_range self.old from to }
        ensures len { length result.now + from ≡ to }
        ensures whole { length self.old ≡ FILE_BYTES }
    {
        self.cells.part_mut(from, to)
    }
}
