//! Operations whose result has twice the width of an operand ("V" Vector Extension 1.0, sections 11.2, 11.12 and
//! 11.14). `N` is the narrow width, and `W` the wide one.
ghost use Rattle.std.specs.Prelude.{◌≡◌, ◌+ℤ◌, ◌*ℤ◌, pos, ℕ, ℤ};
ghost use Rattle.std.specs.Int.{cast_signed};
ghost use Rattle.lane_arith.specs.SecondElements.{HasNumber, number_at};
ghost use Rattle.rv_model.specs.elements.Elements.{element};
ghost use Rattle.rv_model.specs.lending.Writes.{HasElement};
ghost use Rattle.rv_model.specs.elements.Formulas.{wide_source_formula, widen_formula, widen_multiply_add_formula};
ghost use Rattle.rv_model.specs.elements.Formulas.{wrap};
ghost use Rattle.rv_model.specs.vector.Groups.{width_bytes};

use crate::lane::Lane;
use crate::operations::sum;
use crate::results::Results;
use crate::second_elements::SecondElements;
use crate::whole_number::{full_difference, full_sum, wrapped};
use rv_model::instructions::operations::{WideSourceOp, WidenMultiplyAddOp, WidenOp};
use scalar_core::{full_mixed, full_signed};
use std::marker::PhantomData;

/// The product of two unsigned numbers.
fn product<N: Lane, W: Lane>(a: N, b: N) -> W
    ensures { W.value result ≡ wrap W.width (pos (N.value a) *ℤ pos (N.value b)) }
{
    W::low_bits(a.number().wrapping_mul(b.number()))
}

/// The product of two signed numbers.
fn signed_product<N: Lane, W: Lane>(a: N, b: N) -> W
    ensures { W.value result ≡ wrap W.width (cast_signed N.width (N.value a) *ℤ cast_signed N.width (N.value b)) }
{
    wrapped(full_signed(a.signed_number(), b.signed_number()))
}

/// The product of a signed and an unsigned number.
fn mixed_product<N: Lane, W: Lane>(a: N, b: N) -> W
    ensures { W.value result ≡ wrap W.width (cast_signed N.width (N.value a) *ℤ pos (N.value b)) }
{
    wrapped(full_mixed(a.signed_number(), b.number()))
}

/// An operation on `a`, the elements of vs2, and `b`, the elements of the second operand.
#[derive(Clone, Copy)]
pub struct Widen<'a, N> {
    pub op: WidenOp,
    pub a: &'a [u8],
    pub b: SecondElements<'a>,
    pub element: PhantomData<N>,
}

/// One element of the result.
fn widened<N: Lane, W: Lane>(op: WidenOp, a: N, b: N) -> W
    ensures { W.value result ≡ wrap W.width (widen_formula op N.width (N.value a) (N.value b)) }
{
    match op {
        WidenOp::Vwaddu => W::low_bits(a.number().wrapping_add(b.number())),
        WidenOp::Vwadd => wrapped(full_sum(a.signed_number(), b.signed_number())),
        WidenOp::Vwsubu => W::low_bits(a.number().wrapping_sub(b.number())),
        WidenOp::Vwsub => wrapped(full_difference(a.signed_number(), b.signed_number())),
        WidenOp::Vwmulu => product(a, b),
        WidenOp::Vwmulsu => mixed_product(a, b),
        WidenOp::Vwmul => signed_product(a, b),
    }
}

impl<'a, N: Lane, W: Lane> Results<W> for Widen<'a, N> {
    ghost number = { λ r i. wrap W.width (widen_formula r.op N.width (element (width_bytes N.width) r.a.now i)
        (number_at N.width r.b i)) };

    ghost has = { λ r i. HasElement (width_bytes N.width) r.a.now i × HasNumber N.width r.b i };

    fn result(&self, index: usize) -> W {
        widened(self.op, N::load(self.a, index), self.b.element::<N>(index))
    }
}

/// An operation on `a`, the elements of vs2, which have twice the width, and `b`, the elements of the second
/// operand.
#[derive(Clone, Copy)]
pub struct WideSource<'a, N> {
    pub op: WideSourceOp,
    pub a: &'a [u8],
    pub b: &'a [u8],
    pub element: PhantomData<N>,
}

/// Return one element of the result of an operation whose first operand has twice the width.
pub fn apply_wide<N: Lane, W: Lane>(op: WideSourceOp, a: W, b: N) -> W
    ensures { W.value result ≡ wrap W.width (wide_source_formula op W.width N.width (W.value a) (N.value b)) }
{
    match op {
        WideSourceOp::Vwaddu => W::low_bits(a.number().wrapping_add(b.number())),
        WideSourceOp::Vwadd => wrapped(full_sum(a.signed_number(), b.signed_number())),
        WideSourceOp::Vwsubu => W::low_bits(a.number().wrapping_sub(b.number())),
        WideSourceOp::Vwsub => wrapped(full_difference(a.signed_number(), b.signed_number())),
    }
}

impl<'a, N: Lane, W: Lane> Results<W> for WideSource<'a, N> {
    ghost number = { λ r i. wrap W.width (wide_source_formula r.op W.width N.width
        (element (width_bytes W.width) r.a.now i) (element (width_bytes N.width) r.b.now i)) };

    ghost has = { λ r i. HasElement (width_bytes W.width) r.a.now i × HasElement (width_bytes N.width) r.b.now i };

    fn result(&self, index: usize) -> W {
        apply_wide(self.op, W::load(self.a, index), N::load(self.b, index))
    }
}

/// Products of `a`, the elements of vs2, and `b`, the elements of the second operand, which are added to `d`, the
/// old elements of vd, of twice the width.
#[derive(Clone, Copy)]
pub struct WidenMultiplyAdd<'a, N> {
    pub op: WidenMultiplyAddOp,
    pub a: &'a [u8],
    pub b: &'a [u8],
    pub d: &'a [u8],
    pub element: PhantomData<N>,
}

/// The sum of an element and a product that is known modulo 2 to the width.
fn added<W: Lane>(product: W, d: W) -> W
    ensures { (z : ℤ) → W.value product ≡ wrap W.width z → W.value result ≡ wrap W.width (z +ℤ pos (W.value d)) }
{
    sum(product, d)
}

/// One element of the result.
fn product_added<N: Lane, W: Lane>(op: WidenMultiplyAddOp, a: N, b: N, d: W) -> W
    ensures { W.value result
        ≡ wrap W.width (widen_multiply_add_formula op N.width (N.value a) (N.value b) (W.value d)) }
{
    match op {
        WidenMultiplyAddOp::Vwmaccu => added(product(a, b), d),
        WidenMultiplyAddOp::Vwmacc => added(signed_product(a, b), d),
        WidenMultiplyAddOp::Vwmaccus => added(mixed_product(a, b), d),
        WidenMultiplyAddOp::Vwmaccsu => added(mixed_product(b, a), d),
    }
}

impl<'a, N: Lane, W: Lane> Results<W> for WidenMultiplyAdd<'a, N> {
    ghost number = { λ r i. wrap W.width (widen_multiply_add_formula r.op N.width
        (element (width_bytes N.width) r.a.now i) (element (width_bytes N.width) r.b.now i)
        (element (width_bytes W.width) r.d.now i)) };

    ghost has = { λ r i. HasElement (width_bytes N.width) r.a.now i × HasElement (width_bytes N.width) r.b.now i
        × HasElement (width_bytes W.width) r.d.now i };

    fn result(&self, index: usize) -> W {
        product_added(
            self.op,
            N::load(self.a, index),
            N::load(self.b, index),
            W::load(self.d, index),
        )
    }
}
