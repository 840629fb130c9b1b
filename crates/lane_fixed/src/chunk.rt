//! Fixed-point operations on whole chunks of 32 bytes, with elements as SIMD vectors ("V" Vector Extension 1.0,
//! sections 3.8, 12.1 and 12.2).
ghost use Rattle.std.specs.Prelude.{◌≡◌, ◌+ℤ◌, ◌-ℤ◌, pos, ◌/◌, ◌%◌, ◌^◌, ◌<◌, ◌==◌, ℕ, ℤ, IfSome, not, if◌then◌else◌};
ghost use Rattle.std.specs.Int.{cast_signed, from_bool, int_shr, saturate_signed, saturate_unsigned};
ghost use Rattle.std.specs.Int.Signed.{mag};
ghost use Rattle.std.specs.Ordering.{int_eq};
ghost use Rattle.rv_model.specs.elements.FixedPoint.{fixed_point_formula, rounded, rounds_up, saturates};
ghost use Rattle.rv_model.specs.elements.Formulas.{wrap};
ghost use Rattle.lane_fixed.specs.WiderNumbers.{IsShown};
ghost use mir.Val.{bits};

use crate::saturating_results::SaturatedChunk;
use lane_arith::Lane;
use lane_arith::chunk::{at_most, signed_less, top_bits};
use rv_model::RoundingMode;
use rv_model::instructions::operations::FixedPointOp;

/// Numbers with one bit more than the width, as SIMD vectors: the low bits, and a mask whose element isn't 0 if the
/// bit above them is set.
#[derive(Clone, Copy, Drop)]
struct Wider<V> {
    low: V,
    above: V,
}

/// The sums of unsigned numbers, without overflow.
fn sums<L: Lane>(a: L::Vector, b: L::Vector) -> Wider<L::Vector>
    requires first { (i : ℕ) → i < L.count → L.lane a i < 2 ^ bits L.width }
    requires second { (i : ℕ) → i < L.count → L.lane b i < 2 ^ bits L.width }
    ensures { (i : ℕ) → i < L.count
        → IsShown L.width (L.lane result.low i) (L.lane result.above i) (pos (L.lane a i) +ℤ pos (L.lane b i)) }
{
    let low = L::sums(a, b);
    Wider {
        low,
        above: L::less(low, a),
    }
}

/// The sums of signed numbers, without overflow. A sum is negative if the unsigned sum of both numbers, each with
/// its top bit inverted, has no carry.
fn signed_sums<L: Lane>(a: L::Vector, b: L::Vector) -> Wider<L::Vector>
    requires first { (i : ℕ) → i < L.count → L.lane a i < 2 ^ bits L.width }
    requires second { (i : ℕ) → i < L.count → L.lane b i < 2 ^ bits L.width }
    ensures { (i : ℕ) → i < L.count → IsShown L.width (L.lane result.low i) (L.lane result.above i)
        (cast_signed L.width (L.lane a i) +ℤ cast_signed L.width (L.lane b i)) }
{
    let low = L::sums(a, b);
    let turned = L::sums(a, top_bits::<L>());
    Wider {
        low,
        above: at_most::<L>(turned, low),
    }
}

/// The differences of unsigned numbers, without overflow.
fn differences<L: Lane>(a: L::Vector, b: L::Vector) -> Wider<L::Vector>
    requires first { (i : ℕ) → i < L.count → L.lane a i < 2 ^ bits L.width }
    requires second { (i : ℕ) → i < L.count → L.lane b i < 2 ^ bits L.width }
    ensures { (i : ℕ) → i < L.count
        → IsShown L.width (L.lane result.low i) (L.lane result.above i) (pos (L.lane a i) -ℤ pos (L.lane b i)) }
{
    Wider {
        low: L::differences(a, b),
        above: L::less(a, b),
    }
}

/// The differences of signed numbers, without overflow.
fn signed_differences<L: Lane>(a: L::Vector, b: L::Vector) -> Wider<L::Vector>
    requires first { (i : ℕ) → i < L.count → L.lane a i < 2 ^ bits L.width }
    requires second { (i : ℕ) → i < L.count → L.lane b i < 2 ^ bits L.width }
    ensures { (i : ℕ) → i < L.count → IsShown L.width (L.lane result.low i) (L.lane result.above i)
        (cast_signed L.width (L.lane a i) -ℤ cast_signed L.width (L.lane b i)) }
{
    Wider {
        low: L::differences(a, b),
        above: signed_less::<L>(a, b),
    }
}

/// A vector with the same number in each element.
fn small<L: Lane>(number: u64) -> L::Vector
    requires { number < 2 ^ 8 }
    ensures { (i : ℕ) → i < L.count → L.lane result i ≡ number }
{
    L::repeated(L::low_bits(number))
}

/// Half of each number, rounded down.
fn halves<L: Lane>(numbers: Wider<L::Vector>) -> L::Vector
    ensures { (i : ℕ) (v : ℤ) → i < L.count → IsShown L.width (L.lane numbers.low i) (L.lane numbers.above i) v
        → L.lane result i ≡ wrap L.width (int_shr v 1) }
{
    let low = L::each_shifted_right(numbers.low, small::<L>(1));
    let top = L::select(numbers.above, top_bits::<L>(), small::<L>(0));
    L::sums(low, top)
}

/// The increment, 0 or 1, that rounding adds to half of each number. It depends on the bit that halving drops and
/// on the lowest bit of the half.
fn increments<L: Lane>(mode: RoundingMode, low: L::Vector, halves: L::Vector) -> L::Vector
    ensures { (i : ℕ) (v : ℤ) → i < L.count → L.lane low i ≡ wrap L.width v
        → L.lane halves i ≡ wrap L.width (int_shr v 1) → L.lane result i ≡ from_bool (rounds_up mode 1 v) }
{
    let none = small::<L>(0);
    let one = small::<L>(1);
    let lost = L::each_and(low, one);
    let odd = L::each_and(halves, one);
    match mode {
        RoundingMode::NearestUp => lost,
        RoundingMode::NearestEven => L::select(odd, lost, none),
        RoundingMode::Down => none,
        RoundingMode::Odd => L::select(odd, none, lost),
    }
}

/// Half of each number, rounded. None of them saturates.
fn averages<L: Lane>(mode: RoundingMode, numbers: Wider<L::Vector>) -> SaturatedChunk<L::Vector>
    ensures value { (i : ℕ) (v : ℤ) → i < L.count → IsShown L.width (L.lane numbers.low i) (L.lane numbers.above i) v
        → L.lane result.values i ≡ wrap L.width (rounded mode 1 v) }
    ensures saturated { result.saturated ≡ 0 }
{
    let halves = halves::<L>(numbers);
    let increments = increments::<L>(mode, numbers.low, halves);
    SaturatedChunk {
        values: L::sums(halves, increments),
        saturated: 0,
    }
}

/// The numbers, replaced by their limit where `beyond` isn't 0.
fn limited<L: Lane>(
    numbers: L::Vector,
    limits: L::Vector,
    beyond: L::Vector,
) -> SaturatedChunk<L::Vector>
    ensures value { (i : ℕ) → i < L.count
        → L.lane result.values i ≡ (if L.lane beyond i == 0 then L.lane numbers i else L.lane limits i) }
    ensures saturated { (i : ℕ) → i < L.count → (result.saturated / 2 ^ i % 2 == 0) ≡ (L.lane beyond i == 0) }
    ensures bound { result.saturated < 2 ^ L.count }
{
    SaturatedChunk {
        values: L::select(beyond, limits, numbers),
        saturated: L::to_bits(beyond),
    }
}

/// Sums of unsigned numbers, saturated to the unsigned range of the width.
fn saturated_sums<L: Lane>(a: L::Vector, b: L::Vector) -> SaturatedChunk<L::Vector>
    requires first { (i : ℕ) → i < L.count → L.lane a i < 2 ^ bits L.width }
    requires second { (i : ℕ) → i < L.count → L.lane b i < 2 ^ bits L.width }
    ensures value { (i : ℕ) → i < L.count → L.lane result.values i
        ≡ wrap L.width (pos (saturate_unsigned L.width (pos (L.lane a i) +ℤ pos (L.lane b i)))) }
    ensures saturated { (i : ℕ) → i < L.count → (result.saturated / 2 ^ i % 2 == 0)
        ≡ int_eq (pos (saturate_unsigned L.width (pos (L.lane a i) +ℤ pos (L.lane b i))))
        (pos (L.lane a i) +ℤ pos (L.lane b i)) }
    ensures bound { result.saturated < 2 ^ L.count }
{
    let numbers = sums::<L>(a, b);
    limited::<L>(numbers.low, L::repeated(L::all_ones()), numbers.above)
}

/// Differences of unsigned numbers, saturated to the unsigned range of the width.
fn saturated_differences<L: Lane>(a: L::Vector, b: L::Vector) -> SaturatedChunk<L::Vector>
    requires first { (i : ℕ) → i < L.count → L.lane a i < 2 ^ bits L.width }
    requires second { (i : ℕ) → i < L.count → L.lane b i < 2 ^ bits L.width }
    ensures value { (i : ℕ) → i < L.count → L.lane result.values i
        ≡ wrap L.width (pos (saturate_unsigned L.width (pos (L.lane a i) -ℤ pos (L.lane b i)))) }
    ensures saturated { (i : ℕ) → i < L.count → (result.saturated / 2 ^ i % 2 == 0)
        ≡ int_eq (pos (saturate_unsigned L.width (pos (L.lane a i) -ℤ pos (L.lane b i))))
        (pos (L.lane a i) -ℤ pos (L.lane b i)) }
    ensures bound { result.saturated < 2 ^ L.count }
{
    let numbers = differences::<L>(a, b);
    limited::<L>(numbers.low, small::<L>(0), numbers.above)
}

/// Numbers saturated to the signed range of the width. A number is outside of the range if its top bit and the bit
/// above differ.
fn signed_saturated<L: Lane>(numbers: Wider<L::Vector>) -> SaturatedChunk<L::Vector>
    ensures value { (i : ℕ) (v : ℤ) → i < L.count → IsShown L.width (L.lane numbers.low i) (L.lane numbers.above i) v
        → mag v < 2 ^ bits L.width → L.lane result.values i ≡ wrap L.width (saturate_signed L.width v) }
    ensures saturated { (i : ℕ) (v : ℤ) → i < L.count
        → IsShown L.width (L.lane numbers.low i) (L.lane numbers.above i) v → mag v < 2 ^ bits L.width
        → (result.saturated / 2 ^ i % 2 == 0) ≡ int_eq (saturate_signed L.width v) v }
    ensures bound { result.saturated < 2 ^ L.count }
{
    let least = top_bits::<L>();
    let greatest = L::differences(least, small::<L>(1));
    let beyond = L::select(
        numbers.above,
        L::less(numbers.low, least),
        at_most::<L>(least, numbers.low),
    );
    let limits = L::select(numbers.above, least, greatest);
    limited::<L>(numbers.low, limits, beyond)
}

/// The results of an operation whose operands and result have the same width, or `None` if SIMD instructions don't
/// compute it.
pub(crate) fn fixed_point<L: Lane>(
    op: FixedPointOp,
    mode: RoundingMode,
    a: L::Vector,
    b: L::Vector,
) -> Option<SaturatedChunk<L::Vector>>
    requires first { (i : ℕ) → i < L.count → L.lane a i < 2 ^ bits L.width }
    requires second { (i : ℕ) → i < L.count → L.lane b i < 2 ^ bits L.width }
    ensures value { IfSome result (λ made. (i : ℕ) → i < L.count
        → L.lane made.values i ≡ wrap L.width (fixed_point_formula op mode L.width (L.lane a i) (L.lane b i))) }
    ensures saturated { IfSome result (λ made. (i : ℕ) → i < L.count
        → (made.saturated / 2 ^ i % 2 == 0) ≡ not (saturates op mode L.width (L.lane a i) (L.lane b i))) }
    ensures bound { IfSome result (λ made. made.saturated < 2 ^ L.count) }
{
    Some(match op {
        FixedPointOp::Vsaddu => saturated_sums::<L>(a, b),
        FixedPointOp::Vsadd => signed_saturated::<L>(signed_sums::<L>(a, b)),
        FixedPointOp::Vssubu => saturated_differences::<L>(a, b),
        FixedPointOp::Vssub => signed_saturated::<L>(signed_differences::<L>(a, b)),
        FixedPointOp::Vaaddu => averages::<L>(mode, sums::<L>(a, b)),
        FixedPointOp::Vaadd => averages::<L>(mode, signed_sums::<L>(a, b)),
        FixedPointOp::Vasubu => averages::<L>(mode, differences::<L>(a, b)),
        FixedPointOp::Vasub => averages::<L>(mode, signed_differences::<L>(a, b)),
        FixedPointOp::Vsmul | FixedPointOp::Vssrl | FixedPointOp::Vssra => return None,
    })
}
