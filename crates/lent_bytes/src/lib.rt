//! Bytes that a memory lends to a change of them, instead of a write for each element.
#![tactic(auto)]

ghost use Rattle.std.specs.Prelude.{◌+◌, ◌^◌, ◌≤◌, ℕ, length};
ghost use Rattle.lent_bytes.specs.Lent.{IsLent};
ghost use Rattle.rv_model.specs.declared.memory.Access.TheVariants.{Store};
ghost use Rattle.rv_model.specs.memory.Memory.{Memory, put_bytes};

/// A change of bytes that a memory lends, each of which may be stored.
pub trait Edit {
    // The first memory may become the second, if `edit` returns this number.
    ghost changes: { Self → Memory → ℕ → Memory → Type 0 };

    /// Change the bytes from the address `first` on. The result is what the caller of the memory asks for, as the
    /// index of the next element.
    fn edit(&self, first: u64, bytes: &mut [u8]) -> usize
        requires end { first + length bytes.old ≤ 2 ^ 64 }
        ensures { (m : Memory) → IsLent Store m first bytes.old
            → changes self.now m result (put_bytes m first bytes.new) };
}
