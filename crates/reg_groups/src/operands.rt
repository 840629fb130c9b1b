//! The register operands of an instruction ("V" Vector Extension 1.0, section 5.2).
ghost use Rattle.std.specs.Prelude.{◌≡◌, ◌≤◌};
ghost use Rattle.std.specs.Int.{w16};
ghost use Rattle.rv_model.specs.legality.Legality.{extension_source};
ghost use Rattle.rv_model.specs.legality.OperandShapes.{field_groups, group, mask};
ghost use Rattle.rv_model.specs.lending.GroupBounds.{emul};
ghost use Rattle.rv_model.specs.vector.Groups.{element_width, group_type, sew_bits};
ghost use Rattle.rv_model.specs.vector.Groups.{access_type, extension_divisor, register_count, with_width};
ghost use Rattle.reg_groups.specs.Roles.{groups_of};

use rv_model::instructions::operations::{Eew, ExtendOp, RegisterCount};
use rv_model::{Content, Operand, Role, Sew, VReg, VType};

/// Return the multiplier (EMUL), in eighths of a register, of a group whose elements have `bits` bits, and which
/// has the same number of elements as a group of `vtype`.
pub fn emul(bits: u16, vtype: VType) -> u32
    ensures { result ≡ emul bits vtype }
{
    u32::from(bits) * u32::from(vtype.lmul.eighths()) / u32::from(vtype.sew.bits())
}

/// Return the width of memory elements, or of indices, in bits.
pub(crate) fn element_bits(width: Eew) -> u16
    ensures { result ≡ sew_bits (element_width width) }
{
    Sew::from_width(width).bits()
}

/// Return the number of registers, 1 to 8, that a move, load or store of whole registers accesses.
pub fn register_count(count: RegisterCount) -> u8
    ensures { result ≡ register_count count }
{
    match count {
        RegisterCount::One => 1,
        RegisterCount::Two => 2,
        RegisterCount::Four => 4,
        RegisterCount::Eight => 8,
    }
}

/// Return the number, 2 to 8, by which an extension divides SEW to get the element width of its source.
pub fn extension_divisor(op: ExtendOp) -> u16
    ensures value { result ≡ extension_divisor op }
    ensures some { 1 ≤ result }
{
    match op {
        ExtendOp::VzextVf8 | ExtendOp::VsextVf8 => 8,
        ExtendOp::VzextVf4 | ExtendOp::VsextVf4 => 4,
        ExtendOp::VzextVf2 | ExtendOp::VsextVf2 => 2,
    }
}

/// For each field, a group of elements of `bits` bits; `emul` is the multiplier of one group, in eighths of a
/// register.
#[inline(always)]
fn groups_of(role: Role, fields: u8, first: VReg, bits: u16, emul: u32) -> Operand
    ensures { result ≡ groups_of role fields first bits emul }
{
    Operand {
        role,
        first,
        content: Content::Elements(bits),
        emul,
        fields,
    }
}

/// The fields of a segment, each a group with SEW and LMUL of the vector type.
#[inline(always)]
pub(crate) fn field_groups(role: Role, fields: u8, first: VReg, vtype: VType) -> Operand
    ensures { result ≡ field_groups role fields first (group_type vtype) }
{
    let emul = u32::from(vtype.lmul.eighths());
    groups_of(role, fields, first, vtype.sew.bits(), emul)
}

/// A group with SEW and LMUL of the vector type.
#[inline(always)]
pub(crate) fn group_operand(role: Role, first: VReg, vtype: VType) -> Operand
    ensures { result ≡ group role first (group_type vtype) }
{
    field_groups(role, 1, first, vtype)
}

/// A group of 16-bit indices, with the same number of elements as a group of the vector type.
#[inline(always)]
pub(crate) fn index_group(role: Role, first: VReg, vtype: VType) -> Operand
    ensures { result ≡ group role first (with_width w16 (group_type vtype)) }
{
    groups_of(role, 1, first, 16, emul(16, vtype))
}

/// The fields of a load or store, each a group of elements of `width`, with the same number of elements as a group
/// of the vector type.
#[inline(always)]
pub(crate) fn access_groups(
    role: Role,
    fields: u8,
    first: VReg,
    width: Eew,
    vtype: VType,
) -> Operand
    ensures { result ≡ field_groups role fields first (access_type vtype width) }
{
    let bits = element_bits(width);
    groups_of(role, fields, first, bits, emul(bits, vtype))
}

/// vs2 of an extension: a group of elements of SEW divided by 2, 4 or 8, which may be below 8 bits.
#[tactic(auto, using(crate::proofs::Widths::part_group))]
#[inline(always)]
pub(crate) fn extension_source(op: ExtendOp, first: VReg, vtype: VType) -> Operand
    ensures { result ≡ extension_source op first vtype }
{
    let bits = vtype.sew.bits() / extension_divisor(op);
    groups_of(Role::Read, 1, first, bits, emul(bits.max(8), vtype))
}

/// A register that holds a mask.
#[inline(always)]
pub(crate) fn mask(role: Role, first: VReg) -> Operand
    ensures { result ≡ mask role first }
{
    Operand {
        role,
        first,
        content: Content::Mask,
        emul: 8,
        fields: 1,
    }
}
