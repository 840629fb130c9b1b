//! Pseudorandom numbers of a fixed generator, for programs that try many inputs.
#![tactic(auto)]

ghost use Rattle.std.specs.Prelude.{◌≡◌, ◌≤◌, ◌<◌, ◌%◌, length, slice_index_or};
ghost use Rattle.rand_core.specs.Stream.{fill_bytes, next_u32, next_u64};
ghost use Rattle.rand_xoshiro.specs.SplitMix64.{splitmix_seed};
ghost use Rattle.rand_xoshiro.specs.Xoshiro256.{of_seed};
ghost use Rattle.draws.specs.Drawn.{drawn};

use rand_core::{Rng, SeedableRng};
use rand_xoshiro::Xoshiro256PlusPlus;

/// Pseudorandom numbers of a xoshiro256++ generator.
#[derive(Drop)]
pub struct Draws {
    generator: Xoshiro256PlusPlus,
}

impl Draws {
    /// Return a generator that starts from a seed.
    pub fn new(seed: u64) -> Draws
        ensures { result.generator ≡ of_seed (splitmix_seed 32 seed) }
    {
        Draws {
            generator: Xoshiro256PlusPlus::seed_from_u64(seed),
        }
    }

    /// Return the next 32-bit number.
    pub fn word(&mut self) -> u32
        ensures { (result, drawn self.new) ≡ next_u32 (drawn self.old) }
    {
        self.generator.next_u32()
    }

    /// Return the next 64-bit number.
    pub fn double_word(&mut self) -> u64
        ensures { (result, drawn self.new) ≡ next_u64 (drawn self.old) }
    {
        self.generator.next_u64()
    }

    /// Return a byte: the lowest 8 bits of the next 32-bit number.
    pub fn byte(&mut self) -> u8
        ensures value { result ≡ (next_u32 (drawn self.old)).0 % 256 }
        ensures rest { drawn self.new ≡ (next_u32 (drawn self.old)).1 }
    {
        (self.word() % 256) as u8
    }

    /// Fill the slice with bytes of the generator.
    pub fn fill(&mut self, bytes: &mut [u8])
        ensures { (bytes.new, drawn self.new) ≡ fill_bytes (length bytes.old) (drawn self.old) }
    {
        self.generator.fill_bytes(bytes);
    }

    /// Return a number below `bound`, which is at least 1: the remainder of the next 32-bit number.
    pub fn below(&mut self, bound: usize) -> usize
        requires { 1 ≤ bound }
        ensures bound { result < bound }
        ensures value { result ≡ (next_u32 (drawn self.old)).0 % bound }
        ensures rest { drawn self.new ≡ (next_u32 (drawn self.old)).1 }
    {
        self.word() as usize % bound
    }

    /// Return one of the texts, at least one, at an index that `below` draws.
    pub fn choice(&mut self, texts: &[&'static str]) -> &'static str
        requires { 1 ≤ length texts.now }
        ensures value { result ≡ slice_index_or texts.now ((next_u32 (drawn self.old)).0 % length texts.now) result }
        ensures rest { drawn self.new ≡ (next_u32 (drawn self.old)).1 }
    {
        texts[self.below(texts.len())]
    }
}
