//! Saturation: the nearest numbers of a width ("V" Vector Extension 1.0, sections 12.1, 12.3 and 12.5).
ghost use Rattle.std.specs.Prelude.{◌≡◌, pos, not};
ghost use Rattle.std.specs.Int.{saturate_signed, saturate_unsigned};
ghost use Rattle.std.specs.Ordering.{int_eq};
ghost use Rattle.rv_model.specs.elements.Formulas.{wrap};

use crate::saturating_results::Saturated;
use lane_arith::Lane;

/// The nearest unsigned number of the width.
pub(crate) fn saturate_unsigned<L: Lane>(number: i128) -> i128
    ensures { result ≡ pos (saturate_unsigned L.width number) }
{
    number.clamp(0, i128::from(L::all_ones().number()))
}

/// The nearest signed number of the width.
pub(crate) fn saturate_signed<L: Lane>(number: i128) -> i128
    ensures { result ≡ saturate_signed L.width number }
{
    let greatest = i128::from(L::all_ones().number() / 2);
    number.clamp(-greatest - 1, greatest)
}

/// The nearest unsigned number of the width, as an element.
pub(crate) fn unsigned_result<L: Lane>(number: u64) -> Saturated<L>
    ensures value { L.value result.value ≡ wrap L.width (pos (saturate_unsigned L.width (pos number))) }
    ensures saturated { result.saturated ≡ not (int_eq (pos (saturate_unsigned L.width (pos number))) (pos number)) }
{
    let nearest = number.min(L::all_ones().number());
    Saturated {
        value: L::low_bits(nearest),
        saturated: nearest != number,
    }
}

/// The nearest signed number of the width to a 64-bit number.
fn nearest_signed<L: Lane>(number: i64) -> i64
    ensures { result ≡ saturate_signed L.width number }
{
    let greatest = (L::all_ones().number() / 2).cast_signed();
    number.clamp(-greatest - 1, greatest)
}

/// A signed number modulo 2 to the width.
#[tactic(auto, using(rv_model::proofs::element_lemmas::Numbers::low_bits_of))]
pub(crate) fn low_bits<L: Lane>(number: i64) -> L
    ensures { L.value result ≡ wrap L.width number }
{
    L::low_bits(number.cast_unsigned())
}

/// The nearest signed number of the width, as an element.
pub(crate) fn signed_result<L: Lane>(number: i64) -> Saturated<L>
    ensures value { L.value result.value ≡ wrap L.width (saturate_signed L.width number) }
    ensures saturated { result.saturated ≡ not (int_eq (saturate_signed L.width number) number) }
{
    let nearest = nearest_signed::<L>(number);
    Saturated {
        value: low_bits(nearest),
        saturated: nearest != number,
    }
}
