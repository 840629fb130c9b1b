//! An array of bytes with mutable borrows of a part.
ghost use Rattle.std.specs.Prelude.{◌≡◌, ◌≤◌, slice_range};
ghost use Rattle.std.specs.Borrow.{sem};

/// An array of bytes, as a struct.
#[derive(Clone, Copy, Drop)]
pub(crate) struct Cells<const N: usize> {
    pub bytes: [u8; N],
}

impl<const N: usize> Cells<N> {
    ghost use Rattle.rv_model.specs.lending.Cells.{LendsPart};

    /// Return the bytes from index `from` up to but not including `to`, for writing.
    pub fn part_mut(&mut self, from: usize, to: usize) -> &mut [u8]
        requires order { from ≤ to }
        requires inside { to ≤ N }
        ensures* writes_back { sem 𝓛 (LendsPart N.row self.entry from result) }
        ensures value { result.now ≡ slice_range self.old.bytes from to }
    {
        &mut self.bytes[from..to]
    }
}
