//! Sums and differences without overflow, and their low bits at the width of an element.
ghost use Rattle.std.specs.Prelude.{◌≡◌, ◌%◌, ◌^◌, ◌+ℤ◌, ◌-ℤ◌};
ghost use Rattle.std.specs.Int.{cast_unsigned, w128};
ghost use Rattle.rv_model.specs.elements.Formulas.{wrap};

use crate::lane::Lane;

/// The low 64 bits of a number.
fn low_half(number: i128) -> u64
    ensures { result ≡ cast_unsigned w128 number % 2 ^ 64 }
{
    (number.cast_unsigned() % (1 << 64)) as u64
}

/// Return a number modulo 2 to the width of an element.
#[tactic(auto, using(rv_model::proofs::element_lemmas::Numbers::low_bits_of_half))]
pub fn wrapped<L: Lane>(number: i128) -> L
    ensures { L.value result ≡ wrap L.width number }
{
    L::low_bits(low_half(number))
}

/// The sum of two signed numbers, without overflow.
pub(crate) fn full_sum(a: i64, b: i64) -> i128
    ensures { result ≡ a +ℤ b }
{
    i128::from(a) + i128::from(b)
}

/// The difference of two signed numbers, without overflow.
pub(crate) fn full_difference(a: i64, b: i64) -> i128
    ensures { result ≡ a -ℤ b }
{
    i128::from(a) - i128::from(b)
}
