//! Combination of whole chunks of 32 bytes lane by lane, with elements as SIMD vectors.
ghost use Rattle.std.specs.Prelude.{◌≡◌, ◌/◌, ◌%◌, ◌^◌, ◌<◌, ◌==◌, ℕ, IfSome, if◌then◌else◌};
ghost use Rattle.lane_reduce.specs.AnyOrder.{combination, neutral_number};
ghost use mir.Val.{bits};

use crate::operations::combining;
use lane_arith::Lane;
use lane_arith::chunk::binary;
use rv_model::instructions::operations::ReduceOp;

/// A vector whose lanes are the operation's neutral element: combining a number with it returns the number.
pub(crate) fn neutral<L: Lane>(op: ReduceOp) -> L::Vector
    ensures { (i : ℕ) → i < L.count → L.lane result i ≡ neutral_number op L.width }
{
    let top = 1 << (L::bits() - 1);
    match op {
        ReduceOp::Vredsum | ReduceOp::Vredor | ReduceOp::Vredxor | ReduceOp::Vredmaxu => {
            L::repeated(L::low_bits(0))
        }
        ReduceOp::Vredand | ReduceOp::Vredminu => L::repeated(L::all_ones()),
        ReduceOp::Vredmin => L::repeated(L::low_bits(top - 1)),
        ReduceOp::Vredmax => L::repeated(L::low_bits(top)),
    }
}

/// The lanes of `a`, combined with those of `b`, or `None` if SIMD instructions don't compute the operation.
pub(crate) fn combined<L: Lane>(op: ReduceOp, a: L::Vector, b: L::Vector) -> Option<L::Vector>
    requires first { (i : ℕ) → i < L.count → L.lane a i < 2 ^ bits L.width }
    requires second { (i : ℕ) → i < L.count → L.lane b i < 2 ^ bits L.width }
    ensures { IfSome result (λ made. (i : ℕ) → i < L.count
        → L.lane made i ≡ combination op L.width (L.lane a i) (L.lane b i)) }
{
    binary::<L>(combining(op), a, b)
}

/// The elements whose bit of `active` is set; the neutral element in place of the others.
pub(crate) fn active_or_neutral<L: Lane>(
    op: ReduceOp,
    elements: L::Vector,
    active: u64,
) -> L::Vector
    ensures { (i : ℕ) → i < L.count → L.lane result i
        ≡ (if active / 2 ^ i % 2 == 0 then neutral_number op L.width else L.lane elements i) }
{
    if active == u64::MAX {
        return elements;
    }
    L::select(L::choose(active), elements, neutral::<L>(op))
}
