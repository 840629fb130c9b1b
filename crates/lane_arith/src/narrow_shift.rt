//! Narrowing shifts, whose source elements have twice the width of the result ("V" Vector Extension 1.0, section
//! 11.7).
ghost use Rattle.std.specs.Prelude.{◌≡◌, ◌%◌, ℕ};
ghost use Rattle.lane_arith.specs.SecondElements.{HasNumber, number_at};
ghost use Rattle.rv_model.specs.elements.Elements.{element};
ghost use Rattle.rv_model.specs.lending.Writes.{HasElement};
ghost use Rattle.rv_model.specs.elements.Formulas.{narrow_shift_formula, wrap};
ghost use Rattle.rv_model.specs.vector.Groups.{width_bytes};
ghost use mir.Val.{bits};

use crate::lane::Lane;
use crate::results::Results;
use crate::second_elements::SecondElements;
use rv_model::instructions::operations::NarrowShiftOp;
use std::marker::PhantomData;

/// Shifts of `a`, the elements of vs2, which have the width of `W`, by `b`, the elements of the second operand.
#[derive(Clone, Copy)]
pub struct NarrowShift<'a, W> {
    pub op: NarrowShiftOp,
    pub a: &'a [u8],
    pub b: SecondElements<'a>,
    pub element: PhantomData<W>,
}

/// The shift amount of a wide element in bits, below its width.
fn shift_amount<N: Lane, W: Lane>(amount: N) -> u32
    ensures { result ≡ N.value amount % bits W.width }
{
    (amount.number() % u64::from(W::bits())) as u32
}

/// One element of the result.
fn narrowed<N: Lane, W: Lane>(op: NarrowShiftOp, a: W, b: N) -> N
    ensures { N.value result ≡ wrap N.width (narrow_shift_formula op W.width (W.value a) (N.value b)) }
{
    let amount = shift_amount::<N, W>(b);
    match op {
        NarrowShiftOp::Vnsrl => N::low_bits(a.number() >> amount),
        NarrowShiftOp::Vnsra => N::low_bits((a.signed_number() >> amount).cast_unsigned()),
    }
}

impl<'a, N: Lane, W: Lane> Results<N> for NarrowShift<'a, W> {
    ghost number = { λ r i. wrap N.width (narrow_shift_formula r.op W.width (element (width_bytes W.width) r.a.now i)
        (number_at N.width r.b i)) };

    ghost has = { λ r i. HasElement (width_bytes W.width) r.a.now i × HasNumber N.width r.b i };

    fn result(&self, index: usize) -> N {
        narrowed(self.op, W::load(self.a, index), self.b.element::<N>(index))
    }
}
