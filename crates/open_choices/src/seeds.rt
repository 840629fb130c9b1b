//! Choices by a seed.
ghost use Rattle.std.specs.Prelude.{◌≡◌, ◌+◌, ◌/◌, ◌%◌, ◌^◌, ◌<◌, ◌≤◌, ◌==◌, not, ℕ};
ghost use Rattle.open_choices.specs.Seeds.{chooses, drawn_bits, is_chosen, is_drawn, mixed};

use crate::choices::Choices;
use lane_arith::{Body, filled_bits};
use rv_model::{GROUP_BYTES, VLENB};

/// Which kinds of choices are made: of tail elements, of masked-off elements, of the length that a fault-only-first load
/// leaves, and of the length that a vset instruction sets.
#[derive(Clone, Copy)]
pub struct Kinds {
    pub tail: bool,
    pub masked: bool,
    pub trim: bool,
    pub length: bool,
}

/// A seed, the kinds of its choices, the first and the last instruction at which it chooses, and the range of elements
/// that it chooses, excluding `high`. Seed 0 chooses nothing, and seed 1 every element. Each element that one of the seeds
/// 2 n and 2 n + 1 chooses, the other one doesn't, but for these two.
#[derive(Clone, Copy)]
pub struct Seed {
    pub seed: u64,
    pub kinds: Kinds,
    pub first: u64,
    pub last: u64,
    pub low: usize,
    pub high: usize,
}

/// The choices of a seed at the instruction with a number.
#[derive(Clone, Copy)]
pub struct SeedChoices {
    pub seed: Seed,
    pub number: u64,
}

/// Return another number of 64 bits, as if by chance.
fn mixed(value: u64) -> u64
    ensures { result ≡ mixed value }
{
    let a = value.wrapping_mul(0x9e37_79b9_7f4a_7c15);
    let b = a.wrapping_add(a >> 32);
    b.wrapping_mul(0xbf58_476d_1ce4_e5b9)
}

/// Return 32 bits of a seed for a number and a place.
pub(crate) fn drawn_bits(seed: u64, number: u64, at: u64) -> u64
    ensures value { result ≡ drawn_bits seed number at }
    ensures small { result < 2 ^ 32 }
{
    let here = mixed(mixed(seed / 2).wrapping_add(number));
    mixed(here.wrapping_add(at)) >> 32
}

/// Return a bit for each element of a word of 32 elements from `first` on, the first element in bit 0, set if a seed draws
/// the element. Other bits are unspecified.
fn drawn_elements(seed: u64, number: u64, first: usize) -> u64
    ensures { (i : ℕ) → first % 32 + i < 32 → (result / 2 ^ i % 2 == 0) ≡ not (is_drawn seed number (first + i)) }
{
    if seed == 1 {
        return u64::MAX;
    }
    let word = drawn_bits(seed, number, (first / 32) as u64) >> (first % 32);
    if seed % 2 == 0 { word } else { word ^ u64::MAX }
}

impl Seed {
    /// Return whether choices are made at the instruction with a number.
    pub fn chooses(&self, number: u64) -> bool
        ensures { result ≡ chooses self.now number }
    {
        self.seed != 0 && self.first <= number && number <= self.last
    }
}

impl Choices for SeedChoices {
    ghost takes = { λ c e. is_chosen c.seed c.number e };

    fn bits(&self, first: usize, count: usize) -> u64 {
        let seed = self.seed;
        if !seed.chooses(self.number) {
            return 0;
        }
        let all = [0; VLENB];
        let high = seed.high.min(GROUP_BYTES);
        let range = Body::new(true, &all, seed.low, high);
        let drawn = drawn_elements(seed.seed, self.number, first);
        drawn & filled_bits(&range, true, first, count)
    }
}
