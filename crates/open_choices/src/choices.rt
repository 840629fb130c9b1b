//! Which of the open elements of an instruction are chosen to become ones.
ghost use Rattle.std.specs.Prelude.{◌≡◌, ◌+◌, ◌/◌, ◌%◌, ◌^◌, ◌<◌, ◌≤◌, ◌==◌, Bool, not, ℕ};

/// The choices of one instruction.
pub trait Choices {
    // The element at this index of the destination becomes ones if it is open.
    ghost takes: { Self → ℕ → Bool };

    /// Return a bit for each of the `count` elements starting at `first`, the first element in bit 0, set if the element
    /// becomes ones. A single word of 32 elements must contain them. Bits above these are unspecified.
    fn bits(&self, first: usize, count: usize) -> u64
        requires { first % 32 + count ≤ 32 }
        ensures { (i : ℕ) → i < count → (result / 2 ^ i % 2 == 0) ≡ not (takes self.now (first + i)) };
}
