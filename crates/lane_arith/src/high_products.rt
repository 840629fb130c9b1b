//! Upper halves of products of elements ("V" Vector Extension 1.0, section 11.10).
ghost use Rattle.std.specs.Prelude.{◌≡◌};
ghost use Rattle.rv_model.specs.declared.instructions.operations.BinaryOp.TheVariants.{Vmulh, Vmulhsu, Vmulhu};
ghost use Rattle.rv_model.specs.elements.Formulas.{formula, wrap};

use crate::lane::Lane;
use crate::whole_number::wrapped;
use scalar_core::{full_mixed, full_signed};

/// The upper half of the product of two unsigned numbers.
pub(crate) fn high_product<L: Lane>(a: L, b: L) -> L
    ensures { L.value result ≡ wrap L.width (formula Vmulhu L.width (L.value a) (L.value b)) }
{
    let product = u128::from(a.number()) * u128::from(b.number());
    L::low_bits((product >> L::bits()) as u64)
}

/// The upper half of the product of two signed numbers.
pub(crate) fn signed_high_product<L: Lane>(a: L, b: L) -> L
    ensures { L.value result ≡ wrap L.width (formula Vmulh L.width (L.value a) (L.value b)) }
{
    let product = full_signed(a.signed_number(), b.signed_number());
    wrapped(product >> L::bits())
}

/// The upper half of the product of a signed and an unsigned number.
pub(crate) fn mixed_high_product<L: Lane>(a: L, b: L) -> L
    ensures { L.value result ≡ wrap L.width (formula Vmulhsu L.width (L.value a) (L.value b)) }
{
    let product = full_mixed(a.signed_number(), b.number());
    wrapped(product >> L::bits())
}
