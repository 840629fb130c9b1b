//! The registers with which a group may start, by itself and together with a destination ("V" Vector Extension 1.0,
//! sections 3.4.2, 5.2 and 5.3).
ghost use Rattle.std.specs.Prelude.{◌||◌, ◌≡◌, ◌==◌, ◌*◌, not};
ghost use Rattle.rv_model.specs.legality.OperandShapes.{destination, group, mask, vector_source};
ghost use Rattle.rv_model.specs.legality.RegisterOperands.{allows, is_group};
ghost use Rattle.rv_model.specs.vector.Groups.{group_type, lmul_eighths, sew_width, single_type, wide_type};
ghost use Rattle.reg_groups.specs.Roles.{groups_of, may_be_compared_into, is_other_group, is_narrowing_source, is_compatible_source};

use crate::agreement::{allows, is_group};
use crate::groups::registers;
use crate::operands::{group_operand, index_group, mask};
use rv_model::{Lmul, Operand, Role, Shape, VReg, VType};

/// Whether a group of the vector type's multiplier may start with this register. An aligned group ends inside the
/// register file.
#[inline(always)]
pub(crate) fn is_aligned(first: VReg, vtype: VType) -> bool
    ensures { result ≡ is_group (group Role.Read first (group_type vtype)) }
{
    let low_bits = match vtype.lmul {
        Lmul::Mf8 | Lmul::Mf4 | Lmul::Mf2 | Lmul::M1 => 0,
        Lmul::M2 => 1,
        Lmul::M4 => 3,
        Lmul::M8 => 7,
    };
    first.number() & low_bits == 0
}

/// Whether the instruction is unmasked or its destination starts after v0, which holds the mask.
#[inline(always)]
pub(crate) fn is_free_of_mask(vd: VReg, unmasked: bool) -> bool
    ensures { result ≡ (unmasked || not (vd == 0)) }
{
    unmasked || vd.number() != 0
}

/// Whether a source is a legal group, and the destination may be used together with it.
#[inline(always)]
pub(crate) fn is_compatible_source(destination: &Operand, source: &Operand) -> bool
    ensures { result ≡ is_compatible_source destination.now source.now }
{
    is_group(source) && allows(destination, source)
}

/// Whether an operand may be used together with v0 as the mask, if the instruction is masked.
#[inline(always)]
pub(crate) fn allows_v0(operand: &Operand, unmasked: bool) -> bool
    ensures { result ≡ (unmasked || allows operand.now (mask Role.Control 0)) }
{
    unmasked || allows(operand, &mask(Role::Control, VReg::new(0)))
}

/// Whether an instruction may read a group and write a mask to `vd`: the mask is outside of the group, or is its
/// first register.
#[inline(always)]
pub(crate) fn may_be_compared_into(vd: VReg, first: VReg, vtype: VType) -> bool
    ensures { result ≡ may_be_compared_into vd first vtype }
{
    let size = registers(u32::from(vtype.lmul.eighths()));
    is_aligned(first, vtype)
        && (vd.number() <= first.number() || first.number() + size <= vd.number())
}

/// Whether a register may hold a mask: true of each register.
#[inline(always)]
pub(crate) fn is_mask_register(register: VReg) -> bool
    ensures { result ≡ is_group (mask Role.Read register) }
{
    // For the proof alone: the number is below 32.
    let _number = register.number();
    true
}

/// Whether a register may hold elements of SEW: true of each register.
#[inline(always)]
pub(crate) fn is_register(register: VReg, vtype: VType) -> bool
    ensures { result ≡ is_group (group Role.Read register (single_type (sew_width vtype.sew))) }
{
    // For the proof alone: the number is below 32, and an element has 8 to 64 bits.
    let _number = register.number();
    let _bits = vtype.sew.bits();
    true
}

/// Whether a register may hold elements of twice SEW: true unless SEW is 64.
#[inline(always)]
#[tactic(auto, using(crate::proofs::Widths::doubled_bits))]
pub(crate) fn is_wide_register(register: VReg, vtype: VType) -> bool
    ensures { result ≡ is_group (group Role.Read register (single_type (wide_type vtype).width)) }
{
    // For the proof alone: the number is below 32.
    let _number = register.number();
    vtype.sew.bits() != 64
}

/// Whether a group of twice the vector type's multiplier may start with this register: none may if LMUL is 8.
#[inline(always)]
fn is_aligned_twice(first: VReg, vtype: VType) -> bool
    ensures { result ≡ is_group (groups_of Role.Read 1 first 8 (2 * lmul_eighths vtype.lmul)) }
{
    let low_bits = match vtype.lmul {
        Lmul::Mf8 | Lmul::Mf4 | Lmul::Mf2 => 0,
        Lmul::M1 => 1,
        Lmul::M2 => 3,
        Lmul::M4 => 7,
        Lmul::M8 => return false,
    };
    first.number() & low_bits == 0
}

/// Whether a group of elements of twice SEW may start with this register: none may if SEW is 64.
#[inline(always)]
#[tactic(auto, using(crate::proofs::Pairs::wide_aligned))]
pub(crate) fn is_wide_aligned(first: VReg, vtype: VType) -> bool
    ensures { result ≡ is_group (group Role.Read first (wide_type vtype)) }
{
    vtype.sew.bits() != 64 && is_aligned_twice(first, vtype)
}

/// Whether a group of the vector type may start with `first`, which isn't `vd`.
#[inline(always)]
pub(crate) fn is_other_group(vd: VReg, first: VReg, vtype: VType) -> bool
    ensures { result ≡ is_other_group vd first vtype }
{
    is_aligned(first, vtype) && vd.number() != first.number()
}

/// Whether an instruction may read a group of elements of twice SEW and write a group of the vector type to `vd`:
/// `vd` is outside of the source, or is its first register.
#[inline(always)]
pub(crate) fn is_narrowing_source(vd: VReg, first: VReg, vtype: VType) -> bool
    ensures { result ≡ is_narrowing_source vd first vtype }
{
    let size = registers(2 * u32::from(vtype.lmul.eighths()));
    is_wide_aligned(first, vtype)
        && (vd.number() <= first.number() || first.number() + size <= vd.number())
}

/// Whether an instruction may read a group of 16-bit indices, if its destination may not overlap them.
#[inline(always)]
pub(crate) fn are_indices_apart(vd: VReg, first: VReg, vtype: VType) -> bool
    ensures { result
        ≡ is_compatible_source (destination Shape.GatherIndices16 vd vtype) (vector_source Shape.GatherIndices16 first vtype) }
{
    let indices = index_group(Role::Read, first, vtype);
    is_compatible_source(&group_operand(Role::Apart, vd, vtype), &indices)
}
