//! Zero extension and sign extension of narrower elements ("V" Vector Extension 1.0, section 11.3).
ghost use Rattle.std.specs.Prelude.{◌≡◌, ℕ};
ghost use Rattle.rv_model.specs.elements.Elements.{element};
ghost use Rattle.rv_model.specs.lending.Writes.{HasElement};
ghost use Rattle.rv_model.specs.elements.Formulas.{extend_formula, wrap};
ghost use Rattle.rv_model.specs.vector.Groups.{width_bytes};

use crate::lane::Lane;
use crate::results::Results;
use rv_model::instructions::operations::ExtendOp;
use std::marker::PhantomData;

/// Extensions of `a`, the elements of vs2, which have the width of `N`.
#[derive(Clone, Copy)]
pub struct Extend<'a, N> {
    pub op: ExtendOp,
    pub a: &'a [u8],
    pub element: PhantomData<N>,
}

/// One element of the result.
fn extended<N: Lane, L: Lane>(op: ExtendOp, a: N) -> L
    ensures { L.value result ≡ wrap L.width (extend_formula op N.width (N.value a)) }
{
    match op {
        ExtendOp::VzextVf8 | ExtendOp::VzextVf4 | ExtendOp::VzextVf2 => L::low_bits(a.number()),
        ExtendOp::VsextVf8 | ExtendOp::VsextVf4 | ExtendOp::VsextVf2 => {
            L::low_bits(a.signed_number().cast_unsigned())
        }
    }
}

impl<'a, N: Lane, L: Lane> Results<L> for Extend<'a, N> {
    ghost number = { λ r i. wrap L.width (extend_formula r.op N.width (element (width_bytes N.width) r.a.now i)) };

    ghost has = { λ r i. HasElement (width_bytes N.width) r.a.now i };

    fn result(&self, index: usize) -> L {
        extended(self.op, N::load(self.a, index))
    }
}
