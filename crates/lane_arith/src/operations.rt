//! Operations on elements whose operands and result have the same width ("V" Vector Extension 1.0, sections 11.1,
//! 11.5, 11.6 and 11.9 to 11.11).
ghost use Rattle.std.specs.Prelude.{◌≡◌, ◌%◌};
ghost use mir.Val.{bits};
ghost use Rattle.rv_model.specs.declared.instructions.operations.BinaryOp.TheVariants.{Vadd, Vand, Vmax, Vmaxu, Vmin};
ghost use Rattle.rv_model.specs.declared.instructions.operations.BinaryOp.TheVariants.{Vminu, Vmul, Vor, Vsll, Vsra};
ghost use Rattle.rv_model.specs.declared.instructions.operations.BinaryOp.TheVariants.{Vsrl, Vsub, Vxor};
ghost use Rattle.rv_model.specs.elements.Formulas.{formula, wrap};

use crate::division::{quotient, remainder, signed_quotient, signed_remainder};
use crate::high_products::{high_product, mixed_high_product, signed_high_product};
use crate::lane::Lane;
use rv_model::instructions::operations::BinaryOp;

/// The sum of two elements, modulo 2 to the width.
pub(crate) fn sum<L: Lane>(a: L, b: L) -> L
    ensures { L.value result ≡ wrap L.width (formula Vadd L.width (L.value a) (L.value b)) }
{
    L::low_bits(a.number().wrapping_add(b.number()))
}

/// The difference of two elements, modulo 2 to the width.
fn difference<L: Lane>(a: L, b: L) -> L
    ensures { L.value result ≡ wrap L.width (formula Vsub L.width (L.value a) (L.value b)) }
{
    L::low_bits(a.number().wrapping_sub(b.number()))
}

/// The lower half of the product.
fn product<L: Lane>(a: L, b: L) -> L
    ensures { L.value result ≡ wrap L.width (formula Vmul L.width (L.value a) (L.value b)) }
{
    L::low_bits(a.number().wrapping_mul(b.number()))
}

/// The lesser of two unsigned numbers.
fn least<L: Lane>(a: L, b: L) -> L
    ensures { L.value result ≡ wrap L.width (formula Vminu L.width (L.value a) (L.value b)) }
{
    L::low_bits(a.number().min(b.number()))
}

/// The greater of two unsigned numbers.
fn greatest<L: Lane>(a: L, b: L) -> L
    ensures { L.value result ≡ wrap L.width (formula Vmaxu L.width (L.value a) (L.value b)) }
{
    L::low_bits(a.number().max(b.number()))
}

/// The lesser of two signed numbers.
#[tactic(auto, using(rv_model::proofs::element_lemmas::Numbers::low_bits_of))]
fn signed_least<L: Lane>(a: L, b: L) -> L
    ensures { L.value result ≡ wrap L.width (formula Vmin L.width (L.value a) (L.value b)) }
{
    L::low_bits(a.signed_number().min(b.signed_number()).cast_unsigned())
}

/// The greater of two signed numbers.
#[tactic(auto, using(rv_model::proofs::element_lemmas::Numbers::low_bits_of))]
fn signed_greatest<L: Lane>(a: L, b: L) -> L
    ensures { L.value result ≡ wrap L.width (formula Vmax L.width (L.value a) (L.value b)) }
{
    L::low_bits(a.signed_number().max(b.signed_number()).cast_unsigned())
}

/// The bitwise AND of two elements.
fn and<L: Lane>(a: L, b: L) -> L
    ensures { L.value result ≡ wrap L.width (formula Vand L.width (L.value a) (L.value b)) }
{
    L::low_bits(a.number() & b.number())
}

/// The bitwise OR of two elements.
fn or<L: Lane>(a: L, b: L) -> L
    ensures { L.value result ≡ wrap L.width (formula Vor L.width (L.value a) (L.value b)) }
{
    L::low_bits(a.number() | b.number())
}

/// The bitwise XOR of two elements.
fn exclusive_or<L: Lane>(a: L, b: L) -> L
    ensures { L.value result ≡ wrap L.width (formula Vxor L.width (L.value a) (L.value b)) }
{
    L::low_bits(a.number() ^ b.number())
}

/// The shift amount in bits: the low bits of `amount`, below the element's width.
fn shift_amount<L: Lane>(amount: L) -> u32
    ensures { result ≡ L.value amount % bits L.width }
{
    (amount.number() % u64::from(L::bits())) as u32
}

/// An element shifted left.
fn shifted_left<L: Lane>(a: L, amount: L) -> L
    ensures { L.value result ≡ wrap L.width (formula Vsll L.width (L.value a) (L.value amount)) }
{
    L::low_bits(a.number() << shift_amount(amount))
}

/// An element shifted right; the upper bits become zeros.
fn shifted_right<L: Lane>(a: L, amount: L) -> L
    ensures { L.value result ≡ wrap L.width (formula Vsrl L.width (L.value a) (L.value amount)) }
{
    L::low_bits(a.number() >> shift_amount(amount))
}

/// An element shifted right; the upper bits become copies of the sign.
fn signed_shifted_right<L: Lane>(a: L, amount: L) -> L
    ensures { L.value result ≡ wrap L.width (formula Vsra L.width (L.value a) (L.value amount)) }
{
    L::low_bits((a.signed_number() >> shift_amount(amount)).cast_unsigned())
}

/// Return one element of an operation's result. Both operands and the result have the same width.
pub fn apply<L: Lane>(op: BinaryOp, a: L, b: L) -> L
    ensures { L.value result ≡ wrap L.width (formula op L.width (L.value a) (L.value b)) }
{
    match op {
        BinaryOp::Vadd => sum(a, b),
        BinaryOp::Vsub => difference(a, b),
        BinaryOp::Vrsub => difference(b, a),
        BinaryOp::Vminu => least(a, b),
        BinaryOp::Vmin => signed_least(a, b),
        BinaryOp::Vmaxu => greatest(a, b),
        BinaryOp::Vmax => signed_greatest(a, b),
        BinaryOp::Vand => and(a, b),
        BinaryOp::Vor => or(a, b),
        BinaryOp::Vxor => exclusive_or(a, b),
        BinaryOp::Vsll => shifted_left(a, b),
        BinaryOp::Vsrl => shifted_right(a, b),
        BinaryOp::Vsra => signed_shifted_right(a, b),
        BinaryOp::Vdivu => quotient(a, b),
        BinaryOp::Vdiv => signed_quotient(a, b),
        BinaryOp::Vremu => remainder(a, b),
        BinaryOp::Vrem => signed_remainder(a, b),
        BinaryOp::Vmulhu => high_product(a, b),
        BinaryOp::Vmul => product(a, b),
        BinaryOp::Vmulhsu => mixed_high_product(a, b),
        BinaryOp::Vmulh => signed_high_product(a, b),
    }
}
