//! Results before saturation of operations whose operands and result have the same width ("V" Vector Extension 1.0,
//! sections 12.1 to 12.4).
ghost use Rattle.std.specs.Prelude.{◌≡◌, ◌+ℤ◌, ◌-ℤ◌, ◌*ℤ◌, ◌%◌, pos};
ghost use Rattle.std.specs.Int.{cast_signed};
ghost use Rattle.rv_model.specs.elements.FixedPoint.{exact, rounded};
ghost use mir.Val.{bits};

use crate::rounding::{Rounding, shift_amount, wide_rounded};
use lane_arith::Lane;
use rv_model::instructions::operations::FixedPointOp;
use scalar_core::full_signed;

/// The sum of two unsigned numbers, without overflow.
fn sum<L: Lane>(a: L, b: L) -> i128
    ensures { result ≡ pos (L.value a) +ℤ pos (L.value b) }
{
    i128::from(a.number()) + i128::from(b.number())
}

/// The sum of two signed numbers, without overflow.
fn signed_sum<L: Lane>(a: L, b: L) -> i128
    ensures { result ≡ cast_signed L.width (L.value a) +ℤ cast_signed L.width (L.value b) }
{
    i128::from(a.signed_number()) + i128::from(b.signed_number())
}

/// The difference of two unsigned numbers, without overflow.
fn difference<L: Lane>(a: L, b: L) -> i128
    ensures { result ≡ pos (L.value a) -ℤ pos (L.value b) }
{
    i128::from(a.number()) - i128::from(b.number())
}

/// The difference of two signed numbers, without overflow.
fn signed_difference<L: Lane>(a: L, b: L) -> i128
    ensures { result ≡ cast_signed L.width (L.value a) -ℤ cast_signed L.width (L.value b) }
{
    i128::from(a.signed_number()) - i128::from(b.signed_number())
}

/// The product of two signed numbers, which has twice the width.
fn signed_product<L: Lane>(a: L, b: L) -> i128
    ensures { result ≡ cast_signed L.width (L.value a) *ℤ cast_signed L.width (L.value b) }
{
    full_signed(a.signed_number(), b.signed_number())
}

/// A number shifted right by the low bits of `amount`, rounded.
fn shifted<L: Lane, M: Rounding>(number: i128, amount: L) -> i128
    ensures { result ≡ rounded M.mode (L.value amount % bits L.width) number }
{
    wide_rounded::<M>(shift_amount::<L, L>(amount), number)
}

/// The rounded result of an operation, before saturation.
pub(crate) fn exact<L: Lane, M: Rounding>(op: FixedPointOp, a: L, b: L) -> i128
    ensures { result ≡ exact op M.mode L.width (L.value a) (L.value b) }
{
    match op {
        FixedPointOp::Vsaddu => sum(a, b),
        FixedPointOp::Vsadd => signed_sum(a, b),
        FixedPointOp::Vssubu => difference(a, b),
        FixedPointOp::Vssub => signed_difference(a, b),
        FixedPointOp::Vsmul => wide_rounded::<M>(L::bits() - 1, signed_product(a, b)),
        FixedPointOp::Vssrl => shifted::<L, M>(i128::from(a.number()), b),
        FixedPointOp::Vssra => shifted::<L, M>(i128::from(a.signed_number()), b),
        FixedPointOp::Vaaddu => wide_rounded::<M>(1, sum(a, b)),
        FixedPointOp::Vaadd => wide_rounded::<M>(1, signed_sum(a, b)),
        FixedPointOp::Vasubu => wide_rounded::<M>(1, difference(a, b)),
        FixedPointOp::Vasub => wide_rounded::<M>(1, signed_difference(a, b)),
    }
}
