//! The group that a vector operation writes, and its elements that the standard leaves open ("V" Vector Extension 1.0,
//! sections 3.4.3, 5.4, 14, 16.1, 16.3 and 16.5).
ghost use Rattle.std.specs.Prelude.{◌≡◌, ◌≤◌, IfSome, Some, true};
ghost use Rattle.std.specs.Option.{option_map};
ghost use Rattle.rv_model.specs.declared.instructions.operations.VectorOp.TheVariants as VectorOp;
ghost use Rattle.rv_model.specs.elements.Arithmetic.{body_of};
ghost use Rattle.rv_model.specs.elements.Bodies.{operation_body};
ghost use Rattle.rv_model.specs.elements.PermutationResults.{scalar_operand};
ghost use Rattle.open_choices.specs.Fills.{arith_fill, each_fill, first_fill, packed_fill, typed_fill};
ghost use Rattle.open_choices.specs.Groups.{fill_of_group, type_or_wide};

use reg_groups::mask_register;
use rv_model::instructions::operations::{MaskUnaryOp, PermuteOp, VectorOp};
use rv_model::{GROUP_BYTES, Scalar, Sew, Source, VLENB, VReg, VState, VType, VectorInstr};

/// A group of registers from `first` on, with a multiplier in eighths of a register. Its elements have the width `sew`, or
/// twice this width if `wide`. The body has the elements from `start` up to `end`, excluding `end`; unless `unmasked`,
/// `mask` says which of them are active. Two flags say whether masked-off elements and the tail are open.
#[derive(Clone, Copy)]
pub struct OpenGroup {
    pub first: VReg,
    pub sew: Sew,
    pub wide: bool,
    pub emul: u32,
    pub unmasked: bool,
    pub mask: [u8; VLENB],
    pub start: usize,
    pub end: usize,
    pub masked_off: bool,
    pub tail: bool,
}

/// Return the multiplier of the vector type's groups in eighths of a register, or of groups of twice the width.
#[tactic(auto, using(crate::proofs::OpenGroups::wide_emul))]
fn multiplier(wide: bool, vtype: VType) -> u32
    ensures { result ≡ (type_or_wide wide vtype).emul }
{
    let lmul = u32::from(vtype.lmul.eighths());
    if wide { 2 * lmul } else { lmul }
}

/// Return the group of an operation that writes an element for each active one of its body.
fn each_group(wide: bool, vtype: VType, first: VReg, unmasked: bool, state: &VState) -> OpenGroup
    ensures fill { fill_of_group result ≡ each_fill vtype (type_or_wide wide vtype) first (body_of unmasked state.now) }
    ensures end { result.end ≤ GROUP_BYTES }
{
    let start = usize::from(state.vstart);
    let end = usize::from(state.conf.vl());
    OpenGroup {
        first,
        sew: vtype.sew,
        wide,
        emul: multiplier(wide, vtype),
        unmasked,
        mask: mask_register(&state.file),
        start,
        end,
        masked_off: vtype.mask_agnostic && !unmasked,
        tail: vtype.tail_agnostic && start < end,
    }
}

/// Return the group of an operation that writes element 0 alone.
fn first_group(wide: bool, vtype: VType, first: VReg, unmasked: bool, state: &VState) -> OpenGroup
    ensures fill { fill_of_group result ≡ first_fill vtype (type_or_wide wide vtype).width first (body_of unmasked state.now) }
    ensures end { result.end ≤ GROUP_BYTES }
{
    let group = each_group(wide, vtype, first, unmasked, state);
    OpenGroup {
        emul: 8,
        unmasked: true,
        start: 0,
        end: usize::from(group.start < group.end),
        masked_off: false,
        ..group
    }
}

/// Return the group of vcompress.
fn packed_group(vtype: VType, first: VReg, state: &VState) -> OpenGroup
    ensures fill { fill_of_group result ≡ packed_fill vtype first (body_of true state.now) }
    ensures end { result.end ≤ GROUP_BYTES }
{
    let group = each_group(false, vtype, first, true, state);
    OpenGroup {
        masked_off: false,
        ..group
    }
}

/// Return all 64 bits of `rs1`, or the immediate, which is unsigned; 0 if the operand is a vector.
fn scalar_operand(source: Source, scalar: &Scalar) -> u64
    ensures { result ≡ scalar_operand source scalar.now }
{
    match source {
        Source::V(_) => 0,
        Source::X(rs1) => scalar.read(rs1),
        Source::I(imm) => u64::from(imm.value()),
    }
}

/// Return the group of a slide or gather. The elements below the offset of vslideup don't belong to its body.
fn permuted_group(
    op: PermuteOp,
    source: Source,
    vtype: VType,
    first: VReg,
    unmasked: bool,
    scalar: &Scalar,
    state: &VState,
) -> OpenGroup
    ensures fill { Some (fill_of_group result) ≡ arith_fill (VectorOp.Permute op) source first (body_of unmasked state.now) vtype scalar.now }
    ensures end { result.end ≤ GROUP_BYTES }
{
    let group = each_group(false, vtype, first, unmasked, state);
    match op {
        PermuteOp::Vslideup => OpenGroup {
            start: group.start.max(scalar_operand(source, scalar) as usize),
            ..group
        },
        _ => group,
    }
}

/// Return the group of an operation of the funct6 table, or `None` if it writes a mask.
fn arith_group(
    op: VectorOp,
    source: Source,
    vtype: VType,
    first: VReg,
    unmasked: bool,
    scalar: &Scalar,
    state: &VState,
) -> Option<OpenGroup>
    ensures fill { option_map fill_of_group result ≡ arith_fill op source first (body_of unmasked state.now) vtype scalar.now }
    ensures end { IfSome result (λ group. group.end ≤ GROUP_BYTES) }
{
    match op {
        VectorOp::Compare(_) | VectorOp::CarryOut(_) => None,
        VectorOp::Widen(_) | VectorOp::WideSource(_) | VectorOp::WidenMultiplyAdd(_) => {
            Some(each_group(true, vtype, first, unmasked, state))
        }
        VectorOp::Reduce(_) => Some(first_group(false, vtype, first, unmasked, state)),
        VectorOp::WidenReduce(_) => Some(first_group(true, vtype, first, unmasked, state)),
        VectorOp::Permute(op) => Some(permuted_group(
            op, source, vtype, first, unmasked, scalar, state,
        )),
        _ => Some(each_group(false, vtype, first, unmasked, state)),
    }
}

/// Return the group of a vector operation under a vector type, or `None` if no element of its destination is open.
pub fn operation_group(
    instr: &VectorInstr,
    vtype: VType,
    scalar: &Scalar,
    state: &VState,
) -> Option<OpenGroup>
    ensures fill { option_map fill_of_group result
        ≡ typed_fill instr.now (operation_body instr.now vtype state.now) vtype scalar.now }
    ensures end { IfSome result (λ group. group.end ≤ GROUP_BYTES) }
{
    match instr {
        VectorInstr::Arith { arith, vd, vm, .. } => {
            let (op, source) = arith.parts();
            arith_group(op, source, vtype, *vd, *vm, scalar, state)
        }
        VectorInstr::Carry {
            carry: _carry,
            vd,
            vs2: _vs2,
        } => Some(each_group(false, vtype, *vd, true, state)),
        VectorInstr::Move { vd, .. } => Some(each_group(false, vtype, *vd, true, state)),
        VectorInstr::Compress { vd, .. } => Some(packed_group(vtype, *vd, state)),
        VectorInstr::Extend { vd, vm, .. } | VectorInstr::ElementIndex { vd, vm } => {
            Some(each_group(false, vtype, *vd, *vm, state))
        }
        VectorInstr::MaskUnary {
            op: MaskUnaryOp::Viota,
            vd,
            vm,
            ..
        } => Some(each_group(false, vtype, *vd, *vm, state)),
        VectorInstr::MoveToVector { vd, .. } => Some(first_group(false, vtype, *vd, true, state)),
        _ => None,
    }
}
