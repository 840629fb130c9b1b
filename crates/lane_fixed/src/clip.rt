//! Narrowing clips: shifts of elements of twice the width, rounded and saturated ("V" Vector Extension 1.0, section
//! 12.5).
ghost use Rattle.std.specs.Prelude.{◌≡◌, ℕ};
ghost use Rattle.rv_model.specs.elements.Elements.{element};
ghost use Rattle.rv_model.specs.lending.Writes.{HasElement};
ghost use Rattle.rv_model.specs.elements.FixedPoint.{clip_formula, clip_saturates};
ghost use Rattle.rv_model.specs.elements.Formulas.{wrap};
ghost use Rattle.rv_model.specs.vector.Groups.{width_bytes};

use crate::rounding::{Rounding, rounded, shift_amount, signed_rounded};
use crate::saturating_results::{Saturated, SaturatingResults};
use crate::saturation::{signed_result, unsigned_result};
use lane_arith::Lane;
use rv_model::RoundingMode;
use rv_model::instructions::operations::ClipOp;
use std::marker::PhantomData;

/// Narrowing clips of `a`, the elements of vs2, which have the width of `W`. `b` has the shift amounts, the
/// elements of the second operand, which have the width of the result. `mode` is the rounding mode (section 3.8).
#[derive(Clone, Copy)]
pub struct Clip<'a, W> {
    pub op: ClipOp,
    pub mode: RoundingMode,
    pub a: &'a [u8],
    pub b: &'a [u8],
    pub element: PhantomData<W>,
}

/// One element of the result.
fn apply<N: Lane, W: Lane, M: Rounding>(op: ClipOp, a: W, b: N) -> Saturated<N>
    ensures value { N.value result.value
        ≡ wrap N.width (clip_formula op M.mode W.width N.width (W.value a) (N.value b)) }
    ensures saturated { result.saturated ≡ clip_saturates op M.mode W.width N.width (W.value a) (N.value b) }
{
    let amount = shift_amount::<N, W>(b);
    match op {
        ClipOp::Vnclipu => unsigned_result(rounded::<M>(amount, a.number())),
        ClipOp::Vnclip => signed_result(signed_rounded::<M>(amount, a.signed_number())),
    }
}

impl<'a, N: Lane, W: Lane> SaturatingResults<N> for Clip<'a, W> {
    ghost number = { λ r i. wrap N.width (clip_formula r.op r.mode W.width N.width
        (element (width_bytes W.width) r.a.now i) (element (width_bytes N.width) r.b.now i)) };

    ghost saturates = { λ r i. clip_saturates r.op r.mode W.width N.width (element (width_bytes W.width) r.a.now i)
        (element (width_bytes N.width) r.b.now i) };

    ghost has = { λ r i. HasElement (width_bytes W.width) r.a.now i × HasElement (width_bytes N.width) r.b.now i };

    ghost mode = { λ r. r.mode };

    fn mode(&self) -> RoundingMode {
        self.mode
    }

    fn result_in<M: Rounding>(&self, index: usize) -> Saturated<N> {
        apply::<N, W, M>(self.op, W::load(self.a, index), N::load(self.b, index))
    }
}
