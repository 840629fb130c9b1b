//! Fixed-point operations on two operands whose elements and results have the same width ("V" Vector Extension 1.0,
//! sections 12.1 to 12.4).
ghost use Rattle.std.specs.Prelude.{◌≡◌, ◌<◌, ◌*ℤ◌, ℕ};
ghost use Rattle.std.specs.Int.{cast_signed};
ghost use Rattle.rv_model.specs.elements.Elements.{element};
ghost use Rattle.rv_model.specs.lending.Writes.{HasElement};
ghost use Rattle.rv_model.specs.elements.FixedPoint.{clipped, fixed_point_formula, saturates};
ghost use Rattle.rv_model.specs.elements.Formulas.{wrap};
ghost use Rattle.rv_model.specs.declared.instructions.operations.FixedPointOp.TheVariants.{Vsmul, Vssra, Vssrl};
ghost use Rattle.rv_model.specs.vector.Groups.{width_bytes};
ghost use mir.Val.{bits};

use crate::chunk::fixed_point;
use crate::exact::exact;
use crate::rounding::{Rounding, rounded, shift_amount, signed_rounded};
use crate::saturating_results::{Saturated, SaturatedChunk, SaturatingResults};
use crate::saturation::{low_bits, saturate_signed, saturate_unsigned, signed_result};
use lane_arith::{Lane, operand_chunk, wrapped};
use rv_model::RoundingMode;
use rv_model::instructions::operations::FixedPointOp;

/// An operation on `a`, the elements of vs2, and `b`, the elements of the second operand. Both have the width of
/// the result: 8, 16, 32 or 64 bits. `mode` is the rounding mode (section 3.8).
#[derive(Clone, Copy)]
pub struct FixedPoint<'a> {
    pub op: FixedPointOp,
    pub mode: RoundingMode,
    pub a: &'a [u8],
    pub b: &'a [u8],
}

/// The nearest number of the width if the operation saturates, else the number itself.
fn clipped<L: Lane>(op: FixedPointOp, number: i128) -> i128
    ensures { result ≡ clipped op L.width number }
{
    match op {
        FixedPointOp::Vsaddu | FixedPointOp::Vssubu => saturate_unsigned::<L>(number),
        FixedPointOp::Vsadd | FixedPointOp::Vssub | FixedPointOp::Vsmul => {
            saturate_signed::<L>(number)
        }
        FixedPointOp::Vssrl
        | FixedPointOp::Vssra
        | FixedPointOp::Vaaddu
        | FixedPointOp::Vaadd
        | FixedPointOp::Vasubu
        | FixedPointOp::Vasub => number,
    }
}

/// One element of a result that may need more than 64 bits before saturation. The function isn't inlined, so that
/// the loops of products and of shifts are short.
#[inline(never)]
fn apply_wide<L: Lane, M: Rounding>(op: FixedPointOp, a: L, b: L) -> Saturated<L>
    ensures value { L.value result.value
        ≡ wrap L.width (fixed_point_formula op M.mode L.width (L.value a) (L.value b)) }
    ensures saturated { result.saturated ≡ saturates op M.mode L.width (L.value a) (L.value b) }
{
    let number = exact::<L, M>(op, a, b);
    let nearest = clipped::<L>(op, number);
    Saturated {
        value: wrapped(nearest),
        saturated: nearest != number,
    }
}

/// The exact product of two signed numbers of less than 64 bits.
fn small_product<L: Lane>(a: L, b: L) -> i64
    requires { bits L.width < 64 }
    ensures { result ≡ cast_signed L.width (L.value a) *ℤ cast_signed L.width (L.value b) }
{
    a.signed_number() * b.signed_number()
}

/// One element of `vsmul` at a width below 64 bits.
fn product<L: Lane, M: Rounding>(a: L, b: L) -> Saturated<L>
    requires { bits L.width < 64 }
    ensures value { L.value result.value
        ≡ wrap L.width (fixed_point_formula Vsmul M.mode L.width (L.value a) (L.value b)) }
    ensures saturated { result.saturated ≡ saturates Vsmul M.mode L.width (L.value a) (L.value b) }
{
    signed_result(signed_rounded::<M>(L::bits() - 1, small_product(a, b)))
}

/// One element shifted right and rounded; the upper bits become zeros.
fn shifted<L: Lane, M: Rounding>(a: L, b: L) -> Saturated<L>
    ensures value { L.value result.value
        ≡ wrap L.width (fixed_point_formula Vssrl M.mode L.width (L.value a) (L.value b)) }
    ensures saturated { result.saturated ≡ saturates Vssrl M.mode L.width (L.value a) (L.value b) }
{
    Saturated {
        value: L::low_bits(rounded::<M>(shift_amount::<L, L>(b), a.number())),
        saturated: false,
    }
}

/// One element shifted right and rounded; the upper bits become copies of the sign.
fn signed_shifted<L: Lane, M: Rounding>(a: L, b: L) -> Saturated<L>
    ensures value { L.value result.value
        ≡ wrap L.width (fixed_point_formula Vssra M.mode L.width (L.value a) (L.value b)) }
    ensures saturated { result.saturated ≡ saturates Vssra M.mode L.width (L.value a) (L.value b) }
{
    let number = signed_rounded::<M>(shift_amount::<L, L>(b), a.signed_number());
    Saturated {
        value: low_bits(number),
        saturated: false,
    }
}

/// One element of the result.
fn apply<L: Lane, M: Rounding>(op: FixedPointOp, a: L, b: L) -> Saturated<L>
    ensures value { L.value result.value
        ≡ wrap L.width (fixed_point_formula op M.mode L.width (L.value a) (L.value b)) }
    ensures saturated { result.saturated ≡ saturates op M.mode L.width (L.value a) (L.value b) }
{
    match op {
        FixedPointOp::Vsmul if L::bits() < 64 => product::<L, M>(a, b),
        FixedPointOp::Vssrl => shifted::<L, M>(a, b),
        FixedPointOp::Vssra => signed_shifted::<L, M>(a, b),
        _ => apply_wide::<L, M>(op, a, b),
    }
}

impl<'a, L: Lane> SaturatingResults<L> for FixedPoint<'a> {
    ghost number = { λ r i. wrap L.width (fixed_point_formula r.op r.mode L.width
        (element (width_bytes L.width) r.a.now i) (element (width_bytes L.width) r.b.now i)) };

    ghost saturates = { λ r i. saturates r.op r.mode L.width (element (width_bytes L.width) r.a.now i)
        (element (width_bytes L.width) r.b.now i) };

    ghost has = { λ r i. HasElement (width_bytes L.width) r.a.now i × HasElement (width_bytes L.width) r.b.now i };

    ghost mode = { λ r. r.mode };

    fn mode(&self) -> RoundingMode {
        self.mode
    }

    fn result_in<M: Rounding>(&self, index: usize) -> Saturated<L> {
        apply::<L, M>(self.op, L::load(self.a, index), L::load(self.b, index))
    }

    fn chunk_results(&self, chunk: usize) -> Option<SaturatedChunk<L::Vector>> {
        let a = operand_chunk::<L>(self.a, chunk)?;
        let b = operand_chunk::<L>(self.b, chunk)?;
        fixed_point::<L>(self.op, self.mode, a, b)
    }
}
