//! Legality of the operations of the funct6 table, and of moves of one group ("V" Vector Extension 1.0, sections
//! 3.4.2, 5.2, 5.3, 10.2, 11, 12, 14, 16 and 19).
ghost use Rattle.std.specs.Prelude.{◌≡◌, ◌∷◌};
ghost use Rattle.rv_model.specs.legality.Legality.{is_legal, is_narrow_only};
ghost use Rattle.rv_model.specs.legality.OperandShapes.{destination, second_source, shape_of, shape_operands};
ghost use Rattle.rv_model.specs.legality.RegisterOperands.{are_legal};

use crate::positions::{
    are_indices_apart, is_aligned, is_free_of_mask, is_mask_register, is_narrowing_source,
    is_other_group, is_register, is_wide_aligned, is_wide_register, may_be_compared_into,
};
use rv_model::instructions::operations::{BinaryOp, FixedPointOp, PermuteOp, VectorOp};
use rv_model::{Arith, Instr, Shape, Source, VConf, VReg, VType, VectorInstr};

/// Whether the operands are legal if all have elements of SEW.
#[inline(always)]
#[tactic(auto, using(crate::proofs::Shapes::single_legal))]
pub(crate) fn is_legal_single(
    vd: VReg,
    vs2: VReg,
    source: Source,
    unmasked: bool,
    vtype: VType,
) -> bool
    ensures { result ≡ are_legal (shape_operands Shape.Single vd vs2 source unmasked vtype) }
{
    is_aligned(vd, vtype)
        && is_aligned(vs2, vtype)
        && match source {
            Source::V(vs1) => is_aligned(vs1, vtype),
            Source::X(_) | Source::I(_) => true,
        }
        && is_free_of_mask(vd, unmasked)
}

/// Whether the operands are legal if the destination has twice the width of the sources.
#[inline(always)]
#[tactic(auto, using(crate::proofs::Shapes::widening_legal))]
fn is_legal_widening(vd: VReg, vs2: VReg, source: Source, unmasked: bool, vtype: VType) -> bool
    ensures { result ≡ are_legal (shape_operands Shape.Widening vd vs2 source unmasked vtype) }
{
    is_wide_aligned(vd, vtype)
        && is_other_group(vd, vs2, vtype)
        && match source {
            Source::V(vs1) => is_other_group(vd, vs1, vtype),
            Source::X(_) | Source::I(_) => true,
        }
        && is_free_of_mask(vd, unmasked)
}

/// Whether the operands are legal if the destination and `vs2` have twice the width of the second source.
#[inline(always)]
#[tactic(auto, using(crate::proofs::Shapes::wide_source_legal))]
fn is_legal_wide_source(vd: VReg, vs2: VReg, source: Source, unmasked: bool, vtype: VType) -> bool
    ensures { result ≡ are_legal (shape_operands Shape.WideSource vd vs2 source unmasked vtype) }
{
    is_wide_aligned(vd, vtype)
        && is_wide_aligned(vs2, vtype)
        && match source {
            Source::V(vs1) => is_other_group(vd, vs1, vtype),
            Source::X(_) | Source::I(_) => true,
        }
        && is_free_of_mask(vd, unmasked)
}

/// Whether the operands are legal if `vs2` has twice the width of the destination.
#[inline(always)]
#[tactic(auto, using(crate::proofs::Shapes::narrowing_legal))]
fn is_legal_narrowing(vd: VReg, vs2: VReg, source: Source, unmasked: bool, vtype: VType) -> bool
    ensures { result ≡ are_legal (shape_operands Shape.Narrowing vd vs2 source unmasked vtype) }
{
    is_aligned(vd, vtype)
        && is_narrowing_source(vd, vs2, vtype)
        && match source {
            Source::V(vs1) => is_aligned(vs1, vtype),
            Source::X(_) | Source::I(_) => true,
        }
        && is_free_of_mask(vd, unmasked)
}

/// Whether the operands are legal if the destination is a mask, which may be v0.
#[inline(always)]
#[tactic(auto, using(crate::proofs::Sources::shape_legal,
// The mask and its sources.
crate::proofs::Pairs::compare_compatible, crate::proofs::Pairs::mask_over_v0))]
fn is_legal_comparison(vd: VReg, vs2: VReg, source: Source, unmasked: bool, vtype: VType) -> bool
    ensures { result ≡ are_legal (shape_operands Shape.Compare vd vs2 source unmasked vtype) }
{
    is_mask_register(vd)
        && may_be_compared_into(vd, vs2, vtype)
        && match source {
            Source::V(vs1) => may_be_compared_into(vd, vs1, vtype),
            Source::X(_) | Source::I(_) => true,
        }
}

/// Whether the operands are legal if the destination may not overlap the others.
#[inline(always)]
#[tactic(auto, using(crate::proofs::Shapes::gather_legal))]
fn is_legal_gather(vd: VReg, vs2: VReg, source: Source, unmasked: bool, vtype: VType) -> bool
    ensures { result ≡ are_legal (shape_operands Shape.Gather vd vs2 source unmasked vtype) }
{
    is_aligned(vd, vtype)
        && is_other_group(vd, vs2, vtype)
        && match source {
            Source::V(vs1) => is_other_group(vd, vs1, vtype),
            Source::X(_) | Source::I(_) => true,
        }
        && is_free_of_mask(vd, unmasked)
}

/// Whether the operands of a gather with 16-bit indices are legal.
#[inline(always)]
#[tactic(auto, using(crate::proofs::Shapes::gather_by_16_bits_legal))]
fn is_legal_gather_by_16_bits(
    vd: VReg,
    vs2: VReg,
    source: Source,
    unmasked: bool,
    vtype: VType,
) -> bool
    ensures { result ≡ are_legal (shape_operands Shape.GatherIndices16 vd vs2 source unmasked vtype) }
{
    is_aligned(vd, vtype)
        && is_other_group(vd, vs2, vtype)
        && match source {
            Source::V(vs1) => are_indices_apart(vd, vs1, vtype),
            Source::X(_) | Source::I(_) => true,
        }
        && is_free_of_mask(vd, unmasked)
}

/// Whether the operands of a reduction are legal: the destination may overlap any operand.
#[inline(always)]
#[tactic(auto, using(crate::proofs::Shapes::reduction_legal))]
fn is_legal_reduction(vd: VReg, vs2: VReg, source: Source, unmasked: bool, vtype: VType) -> bool
    ensures { result ≡ are_legal (shape_operands Shape.Reduction vd vs2 source unmasked vtype) }
{
    is_register(vd, vtype)
        && is_aligned(vs2, vtype)
        && match source {
            Source::V(vs1) => is_register(vs1, vtype),
            Source::X(_) | Source::I(_) => true,
        }
}

/// Whether the operands of a reduction to twice the width are legal.
#[inline(always)]
#[tactic(auto, using(crate::proofs::Shapes::wide_reduction_legal))]
fn is_legal_wide_reduction(
    vd: VReg,
    vs2: VReg,
    source: Source,
    unmasked: bool,
    vtype: VType,
) -> bool
    ensures { result ≡ are_legal (shape_operands Shape.WideReduction vd vs2 source unmasked vtype) }
{
    is_wide_register(vd, vtype)
        && is_aligned(vs2, vtype)
        && match source {
            Source::V(vs1) => is_wide_register(vs1, vtype),
            Source::X(_) | Source::I(_) => true,
        }
}

/// Whether the operands of a move of one group are legal.
#[inline(always)]
#[tactic(auto, using(crate::proofs::Shapes::move_legal))]
pub(crate) fn is_legal_move(source: Source, vd: VReg, vtype: VType) -> bool
    ensures { result ≡ are_legal (destination Shape.Single vd vtype ∷ second_source Shape.Single source vtype) }
{
    is_aligned(vd, vtype)
        && match source {
            Source::V(vs1) => is_aligned(vs1, vtype),
            Source::X(_) | Source::I(_) => true,
        }
}

/// Whether the operation returns the upper half of a product, which is undefined for SEW of 64.
#[inline(always)]
fn has_wide_product(op: BinaryOp) -> bool
    ensures { result ≡ is_narrow_only (VectorOp.Binary op) }
{
    matches!(op, BinaryOp::Vmulhu | BinaryOp::Vmulhsu | BinaryOp::Vmulh)
}

/// Whether the operation is the fractional product `vsmul`.
#[inline(always)]
fn is_fractional_product(op: FixedPointOp) -> bool
    ensures { result ≡ is_narrow_only (VectorOp.FixedPoint op) }
{
    matches!(op, FixedPointOp::Vsmul)
}

/// Whether the operands of a permutation are legal.
#[inline(always)]
fn is_legal_permutation(
    op: PermuteOp,
    vd: VReg,
    vs2: VReg,
    source: Source,
    unmasked: bool,
    vtype: VType,
) -> bool
    ensures { result ≡ are_legal (shape_operands (shape_of (VectorOp.Permute op)) vd vs2 source unmasked vtype) }
{
    match op {
        PermuteOp::Vrgather | PermuteOp::Vslideup | PermuteOp::Vslide1up => {
            is_legal_gather(vd, vs2, source, unmasked, vtype)
        }
        PermuteOp::Vrgatherei16 => is_legal_gather_by_16_bits(vd, vs2, source, unmasked, vtype),
        PermuteOp::Vslidedown | PermuteOp::Vslide1down => {
            is_legal_single(vd, vs2, source, unmasked, vtype)
        }
    }
}

/// Return whether an operation of the funct6 table is legal with this vector type and vstart (sections 3.4.2, 5.2,
/// 5.3 and 14). The operation is passed as its separate operands; `unmasked` is its vm bit.
#[tactic(auto, unfolding(rv_model::specs::legality::Legality::is_legal, rv_model::specs::legality::Legality::operands))]
#[inline(always)]
pub fn legal_arith(
    arith: Arith,
    vd: VReg,
    vs2: VReg,
    unmasked: bool,
    conf: &VConf,
    vstart: u8,
) -> bool
    ensures { result ≡ is_legal (Instr.Vector (VectorInstr.Arith arith vd vs2 unmasked)) conf.now.vtype vstart }
{
    let Some(vtype) = conf.vtype() else {
        return false;
    };
    let (op, source) = arith.parts();
    match op {
        VectorOp::Binary(op) => {
            is_legal_single(vd, vs2, source, unmasked, vtype)
                && (!has_wide_product(op) || vtype.sew.bits() != 64)
        }
        VectorOp::FixedPoint(op) => {
            is_legal_single(vd, vs2, source, unmasked, vtype)
                && (!is_fractional_product(op) || vtype.sew.bits() != 64)
        }
        VectorOp::MultiplyAdd(_) => is_legal_single(vd, vs2, source, unmasked, vtype),
        VectorOp::CarryOut(_) | VectorOp::Compare(_) => {
            is_legal_comparison(vd, vs2, source, unmasked, vtype)
        }
        VectorOp::NarrowShift(_) | VectorOp::Clip(_) => {
            is_legal_narrowing(vd, vs2, source, unmasked, vtype)
        }
        VectorOp::WideSource(_) => is_legal_wide_source(vd, vs2, source, unmasked, vtype),
        VectorOp::Widen(_) | VectorOp::WidenMultiplyAdd(_) => {
            is_legal_widening(vd, vs2, source, unmasked, vtype)
        }
        VectorOp::Reduce(_) => {
            is_legal_reduction(vd, vs2, source, unmasked, vtype) && vstart == 0
        }
        VectorOp::WidenReduce(_) => {
            is_legal_wide_reduction(vd, vs2, source, unmasked, vtype) && vstart == 0
        }
        VectorOp::Permute(op) => is_legal_permutation(op, vd, vs2, source, unmasked, vtype),
    }
}
