//! Operations on whole chunks of 32 bytes, with elements as SIMD vectors.
ghost use Rattle.std.specs.Prelude.{◌≡◌, ◌+◌, ◌*◌, ◌-ℤ◌, pos, ◌/◌, ◌%◌, ◌^◌, ◌<◌, ◌==◌, ◌&&◌, ℕ, IfSome, IsTrue};
ghost use Rattle.std.specs.Prelude.{int_le, int_lt, length, nat_le, not, slice_index, if◌then◌else◌};
ghost use Rattle.std.specs.Int.{byte_at, cast_signed, from_bool};
ghost use Rattle.rv_model.specs.declared.instructions.operations.BinaryOp.TheVariants.{Vand, Vmax, Vmaxu, Vmin, Vminu};
ghost use Rattle.rv_model.specs.declared.instructions.operations.BinaryOp.TheVariants.{Vor, Vsra, Vsrl, Vxor};
ghost use Rattle.rv_model.specs.declared.instructions.operations.CarryOp.TheVariants.{Vadc, Vmerge, Vsbc};
ghost use Rattle.rv_model.specs.declared.instructions.operations.CompareOp.TheVariants.{Vmsle};
ghost use Rattle.rv_model.specs.declared.vector.sizes.TheConstants.{GROUP_BYTES};
ghost use Rattle.rv_model.specs.elements.Elements.{mask_bit};
ghost use Rattle.rv_model.specs.elements.Formulas.{carry_formula, compare_formula, formula, multiply_add_formula, ones};
ghost use Rattle.rv_model.specs.elements.Formulas.{wrap};
ghost use Rattle.rv_model.specs.vector.Groups.{width_bytes};
ghost use mir.Val.{bits, hbits};
ghost use Rattle.lane_arith.specs.SimdOperations.{is_simd};

use crate::lane::Lane;
use rv_model::instructions::operations::{BinaryOp, CarryOp, CompareOp, MultiplyAddOp};
use std::simd::prelude::*;

/// Merge a chunk: each element is its result if its bit of `active` is set, else all ones if its bit of `filled` is
/// set, else its old value.
#[inline(always)]
pub(crate) fn merged<L: Lane>(results: L::Vector, old: u8x32, active: u64, filled: u64) -> u8x32
    ensures { (i m : ℕ) → i < L.count → m < width_bytes L.width → slice_index result (width_bytes L.width * i + m)
        ≡ (if active / 2 ^ i % 2 == 0
        then (if filled / 2 ^ i % 2 == 0 then slice_index old (width_bytes L.width * i + m)
        else byte_at m (ones L.width))
        else byte_at m (L.lane results i)) }
{
    if active == u64::MAX {
        return L::to_bytes(results);
    }
    if filled == 0 {
        return L::to_bytes(L::select(L::choose(active), results, L::from_bytes(old)));
    }
    let rest = L::select(
        L::choose(filled),
        L::repeated(L::all_ones()),
        L::from_bytes(old),
    );
    L::to_bytes(L::select(L::choose(active), results, rest))
}

/// The bitwise AND of two mask registers.
pub(crate) fn and_bytes(a: u8x32, b: u8x32) -> u8x32
    ensures { (i : ℕ) → i < GROUP_BYTES → mask_bit result i ≡ (mask_bit a i && mask_bit b i) }
{
    a & b
}

/// The bits of `a` that are clear in `b`, for two mask registers.
pub(crate) fn and_not_bytes(a: u8x32, b: u8x32) -> u8x32
    ensures { (i : ℕ) → i < GROUP_BYTES → mask_bit result i ≡ (mask_bit a i && not (mask_bit b i)) }
{
    a & !b
}

/// A mask register with its active bits replaced by results.
pub(crate) fn replaced_bytes(old: u8x32, results: u8x32, active: u8x32) -> u8x32
    ensures length { length result ≡ 32 }
    ensures bytes { (q : ℕ) → q < 32 → slice_index result q < 256 }
    ensures bits { (i : ℕ) → i < GROUP_BYTES
        → mask_bit result i ≡ (if mask_bit active i then mask_bit results i else mask_bit old i) }
{
    old ^ ((old ^ results) & active)
}

/// The lesser unsigned number of each pair of elements.
fn minima<L: Lane>(a: L::Vector, b: L::Vector) -> L::Vector
    requires first { (i : ℕ) → i < L.count → L.lane a i < 2 ^ bits L.width }
    requires second { (i : ℕ) → i < L.count → L.lane b i < 2 ^ bits L.width }
    ensures { (i : ℕ) → i < L.count → L.lane result i ≡ wrap L.width (formula Vminu L.width (L.lane a i) (L.lane b i)) }
{
    L::select(L::less(b, a), b, a)
}

/// The greater unsigned number of each pair of elements.
fn maxima<L: Lane>(a: L::Vector, b: L::Vector) -> L::Vector
    requires first { (i : ℕ) → i < L.count → L.lane a i < 2 ^ bits L.width }
    requires second { (i : ℕ) → i < L.count → L.lane b i < 2 ^ bits L.width }
    ensures { (i : ℕ) → i < L.count → L.lane result i ≡ wrap L.width (formula Vmaxu L.width (L.lane a i) (L.lane b i)) }
{
    L::select(L::less(a, b), b, a)
}

/// Return a vector whose elements have only their top bit set.
pub fn top_bits<L: Lane>() -> L::Vector
    ensures { (i : ℕ) → i < L.count → L.lane result i ≡ 2 ^ hbits L.width }
{
    L::repeated(L::low_bits(1 << (L::bits() - 1)))
}

/// Return a mask: an element is not 0 if the element of `a` is less than that of `b`, as signed numbers, and else
/// 0.
pub fn signed_less<L: Lane>(a: L::Vector, b: L::Vector) -> L::Vector
    requires first { (i : ℕ) → i < L.count → L.lane a i < 2 ^ bits L.width }
    requires second { (i : ℕ) → i < L.count → L.lane b i < 2 ^ bits L.width }
    ensures { (i : ℕ) → i < L.count → (L.lane result i == 0)
        ≡ not (int_lt (cast_signed L.width (L.lane a i)) (cast_signed L.width (L.lane b i))) }
{
    let top = top_bits::<L>();
    L::less(L::sums(a, top), L::sums(b, top))
}

/// The lesser signed number of each pair of elements.
fn signed_minima<L: Lane>(a: L::Vector, b: L::Vector) -> L::Vector
    requires first { (i : ℕ) → i < L.count → L.lane a i < 2 ^ bits L.width }
    requires second { (i : ℕ) → i < L.count → L.lane b i < 2 ^ bits L.width }
    ensures { (i : ℕ) → i < L.count → L.lane result i ≡ wrap L.width (formula Vmin L.width (L.lane a i) (L.lane b i)) }
{
    L::select(signed_less::<L>(b, a), b, a)
}

/// The greater signed number of each pair of elements.
fn signed_maxima<L: Lane>(a: L::Vector, b: L::Vector) -> L::Vector
    requires first { (i : ℕ) → i < L.count → L.lane a i < 2 ^ bits L.width }
    requires second { (i : ℕ) → i < L.count → L.lane b i < 2 ^ bits L.width }
    ensures { (i : ℕ) → i < L.count → L.lane result i ≡ wrap L.width (formula Vmax L.width (L.lane a i) (L.lane b i)) }
{
    L::select(signed_less::<L>(a, b), b, a)
}

/// The bitwise AND of each pair of elements.
fn and<L: Lane>(a: L::Vector, b: L::Vector) -> L::Vector
    requires first { (i : ℕ) → i < L.count → L.lane a i < 2 ^ bits L.width }
    requires second { (i : ℕ) → i < L.count → L.lane b i < 2 ^ bits L.width }
    ensures { (i : ℕ) → i < L.count → L.lane result i ≡ wrap L.width (formula Vand L.width (L.lane a i) (L.lane b i)) }
{
    L::each_and(a, b)
}

/// The bitwise OR of each pair of elements.
fn or<L: Lane>(a: L::Vector, b: L::Vector) -> L::Vector
    requires first { (i : ℕ) → i < L.count → L.lane a i < 2 ^ bits L.width }
    requires second { (i : ℕ) → i < L.count → L.lane b i < 2 ^ bits L.width }
    ensures { (i : ℕ) → i < L.count → L.lane result i ≡ wrap L.width (formula Vor L.width (L.lane a i) (L.lane b i)) }
{
    L::each_or(a, b)
}

/// The bitwise XOR of each pair of elements.
fn xor<L: Lane>(a: L::Vector, b: L::Vector) -> L::Vector
    requires first { (i : ℕ) → i < L.count → L.lane a i < 2 ^ bits L.width }
    requires second { (i : ℕ) → i < L.count → L.lane b i < 2 ^ bits L.width }
    ensures { (i : ℕ) → i < L.count → L.lane result i ≡ wrap L.width (formula Vxor L.width (L.lane a i) (L.lane b i)) }
{
    L::each_xor(a, b)
}

/// Each element shifted right; the upper bits become zeros.
fn shifted_right<L: Lane>(a: L::Vector, amounts: L::Vector) -> L::Vector
    requires { (i : ℕ) → i < L.count → L.lane a i < 2 ^ bits L.width }
    ensures { (i : ℕ) → i < L.count → L.lane result i
        ≡ wrap L.width (formula Vsrl L.width (L.lane a i) (L.lane amounts i)) }
{
    L::each_shifted_right(a, amounts)
}

/// Each element shifted right; the upper bits become copies of the sign. The function inverts the top bit, shifts
/// the unsigned numbers, and subtracts the shifted top bit.
fn signed_shifted_right<L: Lane>(a: L::Vector, amounts: L::Vector) -> L::Vector
    requires { (i : ℕ) → i < L.count → L.lane a i < 2 ^ bits L.width }
    ensures { (i : ℕ) → i < L.count → L.lane result i
        ≡ wrap L.width (formula Vsra L.width (L.lane a i) (L.lane amounts i)) }
{
    let top = top_bits::<L>();
    let turned = L::each_shifted_right(L::sums(a, top), amounts);
    L::differences(turned, L::each_shifted_right(top, amounts))
}

/// Return whether `simd_results` computes an operation.
pub fn is_simd(op: BinaryOp) -> bool
    ensures { result ≡ is_simd op }
{
    !matches!(
        op,
        BinaryOp::Vdivu
            | BinaryOp::Vdiv
            | BinaryOp::Vremu
            | BinaryOp::Vrem
            | BinaryOp::Vmulhu
            | BinaryOp::Vmulhsu
            | BinaryOp::Vmulh
    )
}

/// Return the results of an operation that satisfies `is_simd`. Both operands and the result have the same width.
#[inline(always)]
pub fn simd_results<L: Lane>(op: BinaryOp, a: L::Vector, b: L::Vector) -> L::Vector
    requires made { IsTrue (is_simd op) }
    requires first { (i : ℕ) → i < L.count → L.lane a i < 2 ^ bits L.width }
    requires second { (i : ℕ) → i < L.count → L.lane b i < 2 ^ bits L.width }
    ensures { (i : ℕ) → i < L.count → L.lane result i ≡ wrap L.width (formula op L.width (L.lane a i) (L.lane b i)) }
{
    match op {
        BinaryOp::Vadd => L::sums(a, b),
        BinaryOp::Vsub => L::differences(a, b),
        BinaryOp::Vrsub => L::differences(b, a),
        BinaryOp::Vminu => minima::<L>(a, b),
        BinaryOp::Vmin => signed_minima::<L>(a, b),
        BinaryOp::Vmaxu => maxima::<L>(a, b),
        BinaryOp::Vmax => signed_maxima::<L>(a, b),
        BinaryOp::Vand => and::<L>(a, b),
        BinaryOp::Vor => or::<L>(a, b),
        BinaryOp::Vxor => xor::<L>(a, b),
        BinaryOp::Vsll => L::each_shifted_left(a, b),
        BinaryOp::Vsrl => shifted_right::<L>(a, b),
        BinaryOp::Vsra => signed_shifted_right::<L>(a, b),
        BinaryOp::Vmul => L::products(a, b),
        _ => unreachable!(),
    }
}

/// Return the results of an operation, or `None` if SIMD instructions don't compute it. Both operands and the
/// result have the same width.
pub fn binary<L: Lane>(op: BinaryOp, a: L::Vector, b: L::Vector) -> Option<L::Vector>
    requires first { (i : ℕ) → i < L.count → L.lane a i < 2 ^ bits L.width }
    requires second { (i : ℕ) → i < L.count → L.lane b i < 2 ^ bits L.width }
    ensures { IfSome result (λ made. (i : ℕ) → i < L.count
        → L.lane made i ≡ wrap L.width (formula op L.width (L.lane a i) (L.lane b i))) }
{
    if is_simd(op) {
        Some(simd_results::<L>(op, a, b))
    } else {
        None
    }
}

/// The sums of `d` and the products of `a` and `b`.
fn product_sums<L: Lane>(d: L::Vector, a: L::Vector, b: L::Vector) -> L::Vector
    ensures { (i : ℕ) → i < L.count → L.lane result i ≡ wrap L.width (pos (L.lane a i * L.lane b i + L.lane d i)) }
{
    L::sums(L::products(a, b), d)
}

/// The differences of `d` and the products of `a` and `b`.
fn product_differences<L: Lane>(d: L::Vector, a: L::Vector, b: L::Vector) -> L::Vector
    ensures { (i : ℕ) → i < L.count → L.lane result i
        ≡ wrap L.width (pos (L.lane d i) -ℤ pos (L.lane a i * L.lane b i)) }
{
    L::differences(d, L::products(a, b))
}

/// The results of a multiply-add: the products are added to a third operand, or subtracted from it.
pub(crate) fn multiply_add<L: Lane>(
    op: MultiplyAddOp,
    a: L::Vector,
    b: L::Vector,
    d: L::Vector,
) -> L::Vector
    ensures { (i : ℕ) → i < L.count
        → L.lane result i ≡ wrap L.width (multiply_add_formula op (L.lane a i) (L.lane b i) (L.lane d i)) }
{
    match op {
        MultiplyAddOp::Vmadd => product_sums::<L>(a, b, d),
        MultiplyAddOp::Vnmsub => product_differences::<L>(a, b, d),
        MultiplyAddOp::Vmacc => product_sums::<L>(d, a, b),
        MultiplyAddOp::Vnmsac => product_differences::<L>(d, a, b),
    }
}

/// A vector whose element i is 1 if bit i of `word` is set, else 0.
fn carries<L: Lane>(word: u64) -> L::Vector
    ensures { (i : ℕ) → i < L.count → L.lane result i ≡ from_bool (not (word / 2 ^ i % 2 == 0)) }
{
    L::select(
        L::choose(word),
        L::repeated(L::low_bits(1)),
        L::repeated(L::low_bits(0)),
    )
}

/// Sums with incoming carries.
fn carry_sums<L: Lane>(a: L::Vector, b: L::Vector, word: u64) -> L::Vector
    ensures { (i : ℕ) → i < L.count → L.lane result i
        ≡ wrap L.width (carry_formula Vadc (L.lane a i) (L.lane b i) (not (word / 2 ^ i % 2 == 0))) }
{
    L::sums(L::sums(a, b), carries::<L>(word))
}

/// Differences with incoming borrows.
fn borrow_differences<L: Lane>(a: L::Vector, b: L::Vector, word: u64) -> L::Vector
    ensures { (i : ℕ) → i < L.count → L.lane result i
        ≡ wrap L.width (carry_formula Vsbc (L.lane a i) (L.lane b i) (not (word / 2 ^ i % 2 == 0))) }
{
    L::differences(a, L::sums(b, carries::<L>(word)))
}

/// The elements of `b` where the bit of `word` is set, and those of `a` where it is clear.
fn merges<L: Lane>(a: L::Vector, b: L::Vector, word: u64) -> L::Vector
    requires first { (i : ℕ) → i < L.count → L.lane a i < 2 ^ bits L.width }
    requires second { (i : ℕ) → i < L.count → L.lane b i < 2 ^ bits L.width }
    ensures { (i : ℕ) → i < L.count → L.lane result i
        ≡ wrap L.width (carry_formula Vmerge (L.lane a i) (L.lane b i) (not (word / 2 ^ i % 2 == 0))) }
{
    L::select(L::choose(word), b, a)
}

/// The results of an operation with v0 as an operand; bit i of `word` is the bit of v0 for element i.
pub(crate) fn with_mask_operand<L: Lane>(
    op: CarryOp,
    a: L::Vector,
    b: L::Vector,
    word: u64,
) -> L::Vector
    requires first { (i : ℕ) → i < L.count → L.lane a i < 2 ^ bits L.width }
    requires second { (i : ℕ) → i < L.count → L.lane b i < 2 ^ bits L.width }
    ensures { (i : ℕ) → i < L.count → L.lane result i
        ≡ wrap L.width (carry_formula op (L.lane a i) (L.lane b i) (not (word / 2 ^ i % 2 == 0))) }
{
    match op {
        CarryOp::Vadc => carry_sums::<L>(a, b, word),
        CarryOp::Vsbc => borrow_differences::<L>(a, b, word),
        CarryOp::Vmerge => merges::<L>(a, b, word),
    }
}

/// The complement of a mask: an element is 0 where that of `mask` isn't, and not 0 where it is.
fn complement<L: Lane>(mask: L::Vector) -> L::Vector
    ensures { (i : ℕ) → i < L.count → (L.lane result i == 0) ≡ not (L.lane mask i == 0) }
{
    L::select(
        mask,
        L::repeated(L::low_bits(0)),
        L::repeated(L::all_ones()),
    )
}

/// Return a mask: an element is not 0 if the element of `a` is at most that of `b`, as unsigned numbers, and else
/// 0.
pub fn at_most<L: Lane>(a: L::Vector, b: L::Vector) -> L::Vector
    ensures { (i : ℕ) → i < L.count → (L.lane result i == 0) ≡ not (nat_le (L.lane a i) (L.lane b i)) }
{
    complement::<L>(L::less(b, a))
}

/// A mask: an element is not 0 if the element of `a` is at most that of `b`, as signed numbers, and else 0.
fn signed_at_most<L: Lane>(a: L::Vector, b: L::Vector) -> L::Vector
    requires first { (i : ℕ) → i < L.count → L.lane a i < 2 ^ bits L.width }
    requires second { (i : ℕ) → i < L.count → L.lane b i < 2 ^ bits L.width }
    ensures { (i : ℕ) → i < L.count → (L.lane result i == 0)
        ≡ not (int_le (cast_signed L.width (L.lane a i)) (cast_signed L.width (L.lane b i))) }
{
    complement::<L>(signed_less::<L>(b, a))
}

/// A bit for each element, set if the element of `a` is at most that of `b`, as signed numbers.
#[inline(never)]
fn signed_at_most_bits<L: Lane>(a: L::Vector, b: L::Vector) -> u64
    requires first { (i : ℕ) → i < L.count → L.lane a i < 2 ^ bits L.width }
    requires second { (i : ℕ) → i < L.count → L.lane b i < 2 ^ bits L.width }
    ensures value { (i : ℕ) → i < L.count → (result / 2 ^ i % 2 == 0)
        ≡ not (compare_formula Vmsle L.width (L.lane a i) (L.lane b i)) }
    ensures bound { result < 2 ^ L.count }
{
    L::to_bits(signed_at_most::<L>(a, b))
}

/// The results of a comparison, one bit for each element. One match arm calls a function, so that the compiler
/// joins the arms in an integer rather than in a vector of bits that it would have to split.
pub(crate) fn compare<L: Lane>(op: CompareOp, a: L::Vector, b: L::Vector) -> u64
    requires first { (i : ℕ) → i < L.count → L.lane a i < 2 ^ bits L.width }
    requires second { (i : ℕ) → i < L.count → L.lane b i < 2 ^ bits L.width }
    ensures value { (i : ℕ) → i < L.count → (result / 2 ^ i % 2 == 0)
        ≡ not (compare_formula op L.width (L.lane a i) (L.lane b i)) }
    ensures bound { result < 2 ^ L.count }
{
    match op {
        CompareOp::Vmseq => L::to_bits(L::equal(a, b)),
        CompareOp::Vmsne => L::to_bits(complement::<L>(L::equal(a, b))),
        CompareOp::Vmsltu => L::to_bits(L::less(a, b)),
        CompareOp::Vmslt => L::to_bits(signed_less::<L>(a, b)),
        CompareOp::Vmsleu => L::to_bits(at_most::<L>(a, b)),
        CompareOp::Vmsle => signed_at_most_bits::<L>(a, b),
        CompareOp::Vmsgtu => L::to_bits(L::less(b, a)),
        CompareOp::Vmsgt => L::to_bits(signed_less::<L>(b, a)),
    }
}
