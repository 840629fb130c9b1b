//! High products, quotients and remainders of many elements ("V" Vector Extension 1.0, sections 11.10 and 11.11),
//! computed one at a time. Each operation is a type, so that the compiler generates a loop for each.
ghost use Rattle.std.specs.Prelude.{◌≡◌, ◌*◌, ◌<◌, ◌≤◌, ℕ, length};
ghost use Rattle.rv_model.specs.declared.instructions.operations.BinaryOp.{BinaryOp};
ghost use Rattle.rv_model.specs.declared.instructions.operations.BinaryOp.TheVariants.{Vdiv, Vdivu, Vmulh, Vmulhsu};
ghost use Rattle.rv_model.specs.declared.instructions.operations.BinaryOp.TheVariants.{Vmulhu, Vrem, Vremu};
ghost use Rattle.rv_model.specs.elements.Elements.{element, in_range};
ghost use Rattle.rv_model.specs.elements.Formulas.{formula, wrap};
ghost use Rattle.rv_model.specs.lending.Writes.{HasElement, Writes};
ghost use Rattle.rv_model.specs.vector.Groups.{width_bytes};

use crate::division::{quotient, remainder, signed_quotient, signed_remainder};
use crate::high_products::{high_product, mixed_high_product, signed_high_product};
use crate::lane::Lane;

/// An operation whose operands and result have the same width.
pub(crate) trait Operation {
    // The operation.
    ghost op: { BinaryOp };

    /// One element of the result.
    fn apply<L: Lane>(a: L, b: L) -> L
        ensures { L.value result ≡ wrap L.width (formula op L.width (L.value a) (L.value b)) };
}

/// The unsigned quotient.
#[derive(Clone, Copy)]
pub(crate) struct Quotient;

/// The signed quotient.
#[derive(Clone, Copy)]
pub(crate) struct SignedQuotient;

/// The unsigned remainder.
#[derive(Clone, Copy)]
pub(crate) struct Remainder;

/// The remainder of a signed division.
#[derive(Clone, Copy)]
pub(crate) struct SignedRemainder;

/// The upper half of the product of two unsigned numbers.
#[derive(Clone, Copy)]
pub(crate) struct HighProduct;

/// The upper half of the product of two signed numbers.
#[derive(Clone, Copy)]
pub(crate) struct SignedHighProduct;

/// The upper half of the product of a signed and an unsigned number.
#[derive(Clone, Copy)]
pub(crate) struct MixedHighProduct;

impl Operation for Quotient {
    ghost op = { Vdivu };

    fn apply<L: Lane>(a: L, b: L) -> L {
        quotient(a, b)
    }
}

impl Operation for SignedQuotient {
    ghost op = { Vdiv };

    fn apply<L: Lane>(a: L, b: L) -> L {
        signed_quotient(a, b)
    }
}

impl Operation for Remainder {
    ghost op = { Vremu };

    fn apply<L: Lane>(a: L, b: L) -> L {
        remainder(a, b)
    }
}

impl Operation for SignedRemainder {
    ghost op = { Vrem };

    fn apply<L: Lane>(a: L, b: L) -> L {
        signed_remainder(a, b)
    }
}

impl Operation for HighProduct {
    ghost op = { Vmulhu };

    fn apply<L: Lane>(a: L, b: L) -> L {
        high_product(a, b)
    }
}

impl Operation for SignedHighProduct {
    ghost op = { Vmulh };

    fn apply<L: Lane>(a: L, b: L) -> L {
        signed_high_product(a, b)
    }
}

impl Operation for MixedHighProduct {
    ghost op = { Vmulhsu };

    fn apply<L: Lane>(a: L, b: L) -> L {
        mixed_high_product(a, b)
    }
}

/// Write the results for all elements from `start` up to `end`, excluding `end`; `a` has the elements of vs2, and
/// `b` those of the second operand.
#[inline(never)]
pub(crate) fn write_all<L: Lane, O: Operation>(
    a: &[u8],
    b: &[u8],
    start: usize,
    end: usize,
    destination: &mut [u8],
)
    requires first { (i : ℕ) → i < end → HasElement (width_bytes L.width) a.now i }
    requires second { (i : ℕ) → i < end → HasElement (width_bytes L.width) b.now i }
    requires room { width_bytes L.width * end ≤ length destination.old }
    ensures { Writes (width_bytes L.width) (in_range start end)
        (λ i. wrap L.width (formula O.op L.width (element (width_bytes L.width) a.now i)
        (element (width_bytes L.width) b.now i)))
        destination.old destination.new }
{
    for i in start..end {
        O::apply(L::load(a, i), L::load(b, i)).store(destination, i);
    }
}
