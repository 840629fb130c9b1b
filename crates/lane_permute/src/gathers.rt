//! Gathers: elements of a source, selected by their indices ("V" Vector Extension 1.0, section 16.4).
ghost use Rattle.std.specs.Prelude.{◌≡◌, ◌*◌, ◌≤◌, ℕ, length};
ghost use Rattle.rv_model.specs.elements.Elements.{element};
ghost use Rattle.rv_model.specs.lending.Writes.{HasElement};
ghost use Rattle.rv_model.specs.elements.PermutationResults.{gathered};
ghost use Rattle.rv_model.specs.vector.Groups.{width_bytes};

use lane_arith::{Lane, Results};
use std::marker::PhantomData;

/// The element of `a` at an index, or 0 if the index is at least `limit`.
#[tactic(auto, using(rv_model::proofs::element_lemmas::Sets::room_for))]
pub(crate) fn gathered<L: Lane>(a: &[u8], limit: usize, index: u64) -> L
    requires { width_bytes L.width * limit ≤ length a.now }
    ensures { L.value result ≡ gathered limit (element (width_bytes L.width) a.now) index }
{
    if index < limit as u64 {
        L::load(a, index as usize)
    } else {
        L::low_bits(0)
    }
}

/// `vrgather` and `vrgatherei16` with indices in vs1: elements of `a`, the elements of vs2, at the unsigned indices
/// in `indices`, which have the width of `I`. `limit` is the number of source elements, VLMAX rather than vl. An
/// index of at least `limit` selects 0.
#[derive(Clone, Copy)]
pub struct Gather<'a, I> {
    pub a: &'a [u8],
    pub limit: usize,
    pub indices: &'a [u8],
    pub index: PhantomData<I>,
}

impl<'a, I: Lane, L: Lane> Results<L> for Gather<'a, I> {
    ghost number = { λ r i. gathered r.limit (element (width_bytes L.width) r.a.now)
        (element (width_bytes I.width) r.indices.now i) };

    ghost has = { λ r i. HasElement (width_bytes I.width) r.indices.now i
        × (width_bytes L.width * r.limit ≤ length r.a.now) };

    fn result(&self, index: usize) -> L {
        gathered(self.a, self.limit, I::load(self.indices, index).number())
    }

    fn write_range(&self, start: usize, end: usize, destination: &mut [u8]) -> bool {
        for i in start..end {
            let index = I::load(self.indices, i).number();
            gathered::<L>(self.a, self.limit, index).store(destination, i);
        }
        true
    }
}

/// `vrgather` with one unsigned 64-bit index for all elements of the result: the element of `a`, the elements of
/// vs2, at that index. `limit` is the number of source elements, VLMAX rather than vl. An index of at least `limit`
/// selects 0.
#[derive(Clone, Copy)]
pub struct GatherOne<'a> {
    pub a: &'a [u8],
    pub limit: usize,
    pub index: u64,
}

impl<'a, L: Lane> Results<L> for GatherOne<'a> {
    ghost number = { λ r i. gathered r.limit (element (width_bytes L.width) r.a.now) r.index };

    ghost has = { λ r i. width_bytes L.width * r.limit ≤ length r.a.now };

    fn result(&self, _index: usize) -> L {
        gathered(self.a, self.limit, self.index)
    }
}
