//! Elements that count: the number of set bits below each element, and element indices ("V" Vector Extension 1.0,
//! sections 15.8 and 15.9).
ghost use Rattle.std.specs.Prelude.{◌≡◌, ◌%◌, ◌^◌, ◌<◌, ℕ, slice_index};
ghost use mir.Val.{bits};
ghost use Rattle.rv_model.specs.declared.vector.sizes.TheConstants.{GROUP_BYTES};

use lane_arith::{Lane, Results};
use rv_model::GROUP_BYTES;

/// The results of `viota.m`: the counts below each element, as `counts_below` returns them.
#[derive(Clone, Copy)]
pub struct Iota<'a> {
    pub counts: &'a [u8; GROUP_BYTES],
}

impl<'a, L: Lane> Results<L> for Iota<'a> {
    ghost number = { λ r i. slice_index r.counts.now i % 2 ^ bits L.width };

    ghost has = { λ r i. i < GROUP_BYTES };

    fn result(&self, index: usize) -> L {
        L::low_bits(u64::from(self.counts[index]))
    }
}

/// The results of `vid.v`: the index of each element, modulo 2 to the width.
#[derive(Clone, Copy)]
pub struct Index;

impl<L: Lane> Results<L> for Index {
    ghost number = { λ r i. i % 2 ^ bits L.width };

    ghost has = { λ r i. i < GROUP_BYTES };

    fn result(&self, index: usize) -> L {
        L::low_bits(index as u64)
    }
}
