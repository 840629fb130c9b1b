//! Quotients and remainders of elements ("V" Vector Extension 1.0, section 11.11). No division traps.
ghost use Rattle.std.specs.Prelude.{◌≡◌, ◌%◌, ◌^◌, ◌<◌, int_div, int_rem, pos, if◌then◌else◌};
ghost use Rattle.std.proofs.Common.{neg_ℤ};
ghost use Rattle.std.specs.Int.{cast_signed, cast_unsigned};
ghost use Rattle.rv_model.specs.declared.instructions.operations.BinaryOp.TheVariants.{Vdiv, Vdivu, Vrem, Vremu};
ghost use Rattle.rv_model.specs.elements.Formulas.{formula, wrap};
ghost use Rattle.rv_model.specs.scalar.Arithmetic.{overflows};
ghost use mir.Val.{bits};

use crate::lane::Lane;

/// The unsigned quotient; all ones if the divisor is zero.
pub(crate) fn quotient<L: Lane>(a: L, b: L) -> L
    ensures { L.value result ≡ wrap L.width (formula Vdivu L.width (L.value a) (L.value b)) }
{
    match a.number().checked_div(b.number()) {
        Some(quotient) => L::low_bits(quotient),
        None => L::all_ones(),
    }
}

/// The unsigned remainder; the dividend if the divisor is zero.
pub(crate) fn remainder<L: Lane>(a: L, b: L) -> L
    ensures { L.value result ≡ wrap L.width (formula Vremu L.width (L.value a) (L.value b)) }
{
    match a.number().checked_rem(b.number()) {
        Some(remainder) => L::low_bits(remainder),
        None => a,
    }
}

/// Whether a signed division overflows: the least number is divided by -1.
fn overflows<L: Lane>(a: L, b: L) -> bool
    ensures { result ≡ overflows L.width (L.value a) (L.value b) }
{
    a.number() == 1 << (L::bits() - 1) && b.number() == L::all_ones().number()
}

/// The number with this sign and magnitude, modulo 2 to the width.
fn with_sign<L: Lane>(negative: bool, magnitude: u64) -> L
    ensures { L.value result ≡ wrap L.width (if negative then neg_ℤ (pos magnitude) else pos magnitude) }
{
    L::low_bits(if negative {
        magnitude.wrapping_neg()
    } else {
        magnitude
    })
}

/// The signed quotient if the divisor isn't zero, modulo 2 to the width. The function divides magnitudes, since an
/// unsigned division needs no more bits than its operands have.
fn divided<L: Lane>(a: L, b: L) -> L
    requires { 0 < L.value b }
    ensures { L.value result
        ≡ cast_unsigned L.width (int_div (cast_signed L.width (L.value a)) (cast_signed L.width (L.value b)))
        % 2 ^ bits L.width }
{
    let (dividend, divisor) = (a.signed_number(), b.signed_number());
    let magnitude = dividend.unsigned_abs() / divisor.unsigned_abs();
    with_sign((dividend < 0) != (divisor < 0), magnitude)
}

/// The signed quotient; all ones if the divisor is zero, and the dividend at an overflow.
pub(crate) fn signed_quotient<L: Lane>(a: L, b: L) -> L
    ensures { L.value result ≡ wrap L.width (formula Vdiv L.width (L.value a) (L.value b)) }
{
    if b.number() == 0 {
        L::all_ones()
    } else if overflows(a, b) {
        L::low_bits(a.number())
    } else {
        divided(a, b)
    }
}

/// The remainder of a signed division if the divisor isn't zero.
fn left_over<L: Lane>(a: L, b: L) -> L
    requires { 0 < L.value b }
    ensures { L.value result
        ≡ cast_unsigned L.width (int_rem (cast_signed L.width (L.value a)) (cast_signed L.width (L.value b)))
        % 2 ^ bits L.width }
{
    let (dividend, divisor) = (a.signed_number(), b.signed_number());
    let magnitude = dividend.unsigned_abs() % divisor.unsigned_abs();
    with_sign(dividend < 0, magnitude)
}

/// The signed remainder; the dividend if the divisor is zero, and zero at an overflow.
pub(crate) fn signed_remainder<L: Lane>(a: L, b: L) -> L
    ensures { L.value result ≡ wrap L.width (formula Vrem L.width (L.value a) (L.value b)) }
{
    if b.number() == 0 {
        L::low_bits(a.number())
    } else if overflows(a, b) {
        L::low_bits(0)
    } else {
        left_over(a, b)
    }
}
