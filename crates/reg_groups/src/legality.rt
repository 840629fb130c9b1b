//! Legality of vector instructions.
ghost use Rattle.std.specs.Prelude.{[], ◌∷◌, ◌≡◌, ◌↔◌, ◌+◌, ◌==◌, IsTrue, Some, None, true, false, ℕ};
ghost use Rattle.std.specs.Option.{option_map_or};
ghost use Rattle.rv_model.specs.legality.Legality.{IsLegal, access_operands, compress_operands, data_role};
ghost use Rattle.rv_model.specs.legality.Legality.{extension_operands, indexed_role, is_legal, mask_result, operands};
ghost use Rattle.rv_model.specs.legality.Legality.{unit_role, whole_move_operands};
ghost use Rattle.rv_model.specs.legality.OperandShapes.{group, mask, v0};
ghost use Rattle.rv_model.specs.legality.RegisterOperands.{are_legal, is_group};
ghost use Rattle.rv_model.specs.vector.Groups.{group_type, sew_width, registers_type};
ghost use Rattle.rv_model.specs.lending.OtherOperations.{is_other_operation};
ghost use Rattle.reg_groups.specs.Roles.{is_apart_from_mask, is_mask_outside};

use crate::agreement::is_group;
use crate::arithmetic::{is_legal_move, is_legal_single, legal_arith};
use crate::groups::registers;
use crate::operands::{access_groups, element_bits, extension_source, field_groups, group_operand};
use crate::positions::{
    allows_v0, is_aligned, is_compatible_source, is_free_of_mask, is_mask_register, is_other_group,
    is_register,
};
use rv_model::instructions::operations::{
    Direction, Eew, ExtendOp, MaskUnaryOp, RegisterCount, UnitOp,
};
use rv_model::{AccessInstr, Field, Instr, Operand, Role, Sew, VConf, VReg, VType, VectorInstr};

/// The number of fields, 1 to 8, that `nf` encodes.
fn fields(nf: Field<3>) -> u8
    ensures { result ≡ nf + 1 }
{
    nf.value() as u8 + 1
}

/// The role of the data registers of a load or store.
fn data_role(direction: Direction) -> Role
    ensures { result ≡ data_role direction }
{
    match direction {
        Direction::Load => Role::Write,
        Direction::Store => Role::Read,
    }
}

/// The role of the data registers of a unit-stride access.
fn unit_role(op: UnitOp) -> Role
    ensures { result ≡ unit_role op }
{
    match op {
        UnitOp::Load | UnitOp::FaultOnlyFirst => Role::Write,
        UnitOp::Store => Role::Read,
    }
}

/// The role of the data registers of an indexed access: the fields of a segment load may not overlap the indices.
fn indexed_role(direction: Direction, nf: Field<3>) -> Role
    ensures { result ≡ indexed_role direction nf }
{
    match direction {
        Direction::Load => {
            if nf.value() == 0 {
                Role::Write
            } else {
                Role::Apart
            }
        }
        Direction::Store => Role::Read,
    }
}

/// Whether a mask is outside of a group of the vector type that starts with `vd`.
#[inline(always)]
fn is_mask_outside(vd: VReg, register: VReg, vtype: VType) -> bool
    ensures { result ≡ is_mask_outside vd register vtype }
{
    let size = registers(u32::from(vtype.lmul.eighths()));
    is_mask_register(register)
        && (register.number() < vd.number() || vd.number() + size <= register.number())
}

/// Whether the operands of `viota.m`, which counts active elements of a mask, are legal.
#[inline(always)]
#[tactic(auto, using(crate::proofs::Pairs::iota_legal))]
fn is_legal_iota(vd: VReg, vs2: VReg, unmasked: bool, vtype: VType) -> bool
    ensures { result ≡ are_legal (group Role.Apart vd (group_type vtype) ∷ mask Role.Read vs2 ∷ v0 unmasked) }
{
    is_aligned(vd, vtype) && is_mask_outside(vd, vs2, vtype) && is_free_of_mask(vd, unmasked)
}

/// Whether the operands of an operation from a mask to a mask are legal.
#[inline(always)]
#[tactic(auto, using(crate::proofs::Pairs::scan_legal))]
fn is_legal_scan(vd: VReg, vs2: VReg, unmasked: bool) -> bool
    ensures { result ≡ are_legal (mask Role.Apart vd ∷ mask Role.Read vs2 ∷ v0 unmasked) }
{
    is_mask_register(vd)
        && (is_mask_register(vs2) && vd.number() != vs2.number())
        && is_free_of_mask(vd, unmasked)
}

/// Whether the operands of an operation on one mask are legal.
#[inline(always)]
fn is_legal_mask_unary(op: MaskUnaryOp, vd: VReg, vs2: VReg, unmasked: bool, vtype: VType) -> bool
    ensures { result ≡ are_legal (mask_result op vd vtype ∷ mask Role.Read vs2 ∷ v0 unmasked) }
{
    match op {
        MaskUnaryOp::Viota => is_legal_iota(vd, vs2, unmasked, vtype),
        MaskUnaryOp::Scan(_) => is_legal_scan(vd, vs2, unmasked),
    }
}

/// Whether the operands of an operation from a mask to a scalar register are legal: true of each mask register.
#[inline(always)]
#[tactic(auto, using(crate::proofs::Pairs::mask_source_legal))]
fn is_legal_mask_source(vs2: VReg, unmasked: bool) -> bool
    ensures { result ≡ are_legal (mask Role.Read vs2 ∷ v0 unmasked) }
{
    is_mask_register(vs2)
}

/// Whether the operands of a logical operation on masks are legal: true of all mask registers.
#[inline(always)]
#[tactic(auto, using(crate::proofs::Pairs::mask_logic_legal))]
fn is_legal_mask_logic(vd: VReg, vs1: VReg, vs2: VReg) -> bool
    ensures { result ≡ are_legal (mask Role.Write vd ∷ mask Role.Read vs2 ∷ mask Role.Read vs1 ∷ []) }
{
    is_mask_register(vd) && is_mask_register(vs2) && is_mask_register(vs1)
}

/// Whether the operands of `vcompress.vm` are legal.
#[inline(always)]
#[tactic(auto, using(crate::proofs::Pairs::compress_legal))]
fn is_legal_compression(vd: VReg, vs1: VReg, vs2: VReg, vtype: VType) -> bool
    ensures { result ≡ are_legal (compress_operands vd vs1 vs2 vtype) }
{
    is_aligned(vd, vtype) && is_other_group(vd, vs2, vtype) && is_mask_outside(vd, vs1, vtype)
}

/// Whether a group of `count` whole registers may start with this register.
#[inline(always)]
fn is_whole_aligned(count: RegisterCount, first: VReg, sew: Sew) -> bool
    ensures { result ≡ is_group (group Role.Read first (registers_type (sew_width sew) count)) }
{
    // For the proof alone: an element has 8 to 64 bits.
    let _bits = sew.bits();
    let low_bits = match count {
        RegisterCount::One => 0,
        RegisterCount::Two => 1,
        RegisterCount::Four => 3,
        RegisterCount::Eight => 7,
    };
    first.number() & low_bits == 0
}

/// Whether the operands of a move of whole registers are legal.
#[inline(always)]
#[tactic(auto, using(crate::proofs::Pairs::whole_move_legal))]
fn is_legal_whole_move(count: RegisterCount, vd: VReg, vs2: VReg, vtype: VType) -> bool
    ensures { result ≡ are_legal (whole_move_operands count vd vs2 vtype) }
{
    is_whole_aligned(count, vd, vtype.sew) && is_whole_aligned(count, vs2, vtype.sew)
}

/// Whether a destination, a source and the mask are legal together.
#[inline(always)]
#[tactic(auto, using(crate::proofs::Sources::pair_legal))]
fn are_legal_with_mask(destination: &Operand, source: &Operand, unmasked: bool) -> bool
    requires { source.now.role ≡ Role.Read }
    ensures { result ≡ are_legal (destination.now ∷ source.now ∷ v0 unmasked) }
{
    is_group(destination)
        && is_compatible_source(destination, source)
        && allows_v0(destination, unmasked)
}

/// Whether the operands of an extension are legal.
#[inline(always)]
fn is_legal_extension(op: ExtendOp, vd: VReg, vs2: VReg, unmasked: bool, vtype: VType) -> bool
    ensures { result ≡ are_legal (extension_operands op vd vs2 unmasked vtype) }
{
    let source = extension_source(op, vs2, vtype);
    are_legal_with_mask(&group_operand(Role::Write, vd, vtype), &source, unmasked)
}

/// Whether the operands of an access to fields of any width are legal.
#[inline(always)]
#[tactic(auto, using(crate::proofs::Sources::masked_legal))]
fn are_legal_fields(
    role: Role,
    width: Eew,
    nf: Field<3>,
    vd: VReg,
    unmasked: bool,
    vtype: VType,
) -> bool
    ensures { result ≡ are_legal (access_operands role width nf vd unmasked vtype) }
{
    let data = access_groups(role, fields(nf), vd, width, vtype);
    is_group(&data) && allows_v0(&data, unmasked)
}

/// Whether an operand of this role may not overlap the mask.
#[inline(always)]
fn is_apart_from_mask(role: Role) -> bool
    ensures { result ≡ is_apart_from_mask role }
{
    matches!(role, Role::Write | Role::Apart)
}

/// Whether one group of elements of SEW may be loaded or stored. An aligned group that contains v0 starts with v0.
#[inline(always)]
#[tactic(auto, using(crate::proofs::EqualWidths::group_with_mask))]
fn is_legal_group(role: Role, vd: VReg, unmasked: bool, vtype: VType) -> bool
    ensures { result ≡ are_legal (group role vd (group_type vtype) ∷ v0 unmasked) }
{
    is_aligned(vd, vtype) && (unmasked || !is_apart_from_mask(role) || vd.number() != 0)
}

/// Whether the operands of a unit-stride or strided access are legal.
#[inline(always)]
#[tactic(auto, using(crate::proofs::EqualWidths::access_of_sew))]
fn is_legal_access(
    role: Role,
    width: Eew,
    nf: Field<3>,
    vd: VReg,
    unmasked: bool,
    vtype: VType,
) -> bool
    ensures { result ≡ are_legal (access_operands role width nf vd unmasked vtype) }
{
    if nf.value() == 0 && element_bits(width) == vtype.sew.bits() {
        is_legal_group(role, vd, unmasked, vtype)
    } else {
        are_legal_fields(role, width, nf, vd, unmasked, vtype)
    }
}

/// Whether the operands of a load or store are legal without a vector type: false if it needs one.
#[tactic(auto, using(crate::proofs::Sources::lone_legal), unfolding(rv_model::specs::legality::Legality::operands))]
#[inline(always)]
fn has_legal_untyped_access(instr: AccessInstr) -> bool
    ensures { result ≡ option_map_or are_legal (operands (Instr.Access instr) None) false }
{
    match instr {
        AccessInstr::WholeLoad {
            count,
            width,
            vd,
            ..
        } => is_whole_aligned(count, vd, Sew::from_width(width)),
        AccessInstr::WholeStore { count, vd, .. } => { is_whole_aligned(count, vd, Sew::E8) }
        _ => false,
    }
}

/// Whether the operands of a load or store are legal under a vector type.
#[tactic(auto, using(crate::proofs::Sources::lone_legal), unfolding(rv_model::specs::legality::Legality::operands))]
#[inline(always)]
fn has_legal_access(instr: AccessInstr, vtype: VType) -> bool
    ensures { result ≡ option_map_or are_legal (operands (Instr.Access instr) (Some vtype)) false }
{
    match instr {
        AccessInstr::UnitStride {
            op,
            width,
            nf,
            vd,
            vm,
            ..
        } => { is_legal_access(unit_role(op), width, nf, vd, vm, vtype) }
        AccessInstr::Strided {
            direction,
            width,
            nf,
            vd,
            vm,
            ..
        } => { is_legal_access(data_role(direction), width, nf, vd, vm, vtype) }
        AccessInstr::Indexed {
            direction,
            width,
            nf,
            vd,
            vs2,
            vm,
            ..
        } => {
            let data = field_groups(indexed_role(direction, nf), fields(nf), vd, vtype);
            let indices = access_groups(Role::Read, 1, vs2, width, vtype);
            are_legal_with_mask(&data, &indices, vm)
        }
        AccessInstr::MaskAccess { vd, .. } => { is_mask_register(vd) }
        AccessInstr::WholeLoad { .. } | AccessInstr::WholeStore { .. } => {
            has_legal_untyped_access(instr)
        }
    }
}

/// Whether an operation outside of the funct6 table is legal under a vector type.
#[tactic(auto, using(crate::proofs::Sources::lone_legal), unfolding(
// The definition of legality, and the operands of an instruction.
rv_model::specs::legality::Legality::is_legal, rv_model::specs::legality::Legality::operands,
// The rule of operands together.
rv_model::specs::legality::RegisterOperands::are_legal))]
#[inline(always)]
fn is_legal_typed(operation: VectorInstr, vtype: VType, vstart: u8) -> bool
    requires { IsTrue (is_other_operation operation) }
    ensures { result ≡ is_legal (Instr.Vector operation) (Some vtype) vstart }
{
    match operation {
        VectorInstr::Carry { carry, vd, vs2 } => {
            let (_, source) = carry.parts();
            is_legal_single(vd, vs2, source, false, vtype)
        }
        VectorInstr::Move { source, vd } => is_legal_move(source, vd, vtype),
        VectorInstr::WholeMove { count, vd, vs2 } => is_legal_whole_move(count, vd, vs2, vtype),
        VectorInstr::MaskLogic { vd, vs1, vs2, .. } => is_legal_mask_logic(vd, vs1, vs2),
        VectorInstr::Compress { vd, vs1, vs2 } => {
            is_legal_compression(vd, vs1, vs2, vtype) && vstart == 0
        }
        VectorInstr::MaskToScalar { vs2, vm, .. } => is_legal_mask_source(vs2, vm) && vstart == 0,
        VectorInstr::Extend { op, vd, vs2, vm } => is_legal_extension(op, vd, vs2, vm, vtype),
        VectorInstr::MaskUnary { op, vd, vs2, vm } => {
            is_legal_mask_unary(op, vd, vs2, vm, vtype) && vstart == 0
        }
        VectorInstr::ElementIndex { vd, vm } => is_legal_group(Role::Write, vd, vm, vtype),
        VectorInstr::MoveToScalar { vs2, .. } => is_register(vs2, vtype),
        VectorInstr::MoveToVector { vd, .. } => is_register(vd, vtype),
        VectorInstr::SetVli { .. } | VectorInstr::SetIvli { .. } | VectorInstr::SetVl { .. } =>
            true,
        VectorInstr::Arith { .. } => unreachable!(),
    }
}

/// Return whether an operation outside of the funct6 table is legal with this vector type and vstart. Operations
/// that set the vector type are legal without one.
#[tactic(auto, unfolding(
// The definition of legality, and the operands of an instruction.
rv_model::specs::legality::Legality::is_legal, rv_model::specs::legality::Legality::operands,
// The rule of operands together.
rv_model::specs::legality::RegisterOperands::are_legal))]
#[inline(always)]
pub fn legal_other_operation(operation: &VectorInstr, conf: &VConf, vstart: u8) -> bool
    requires { IsTrue (is_other_operation operation.now) }
    ensures { result ≡ is_legal (Instr.Vector operation.now) conf.now.vtype vstart }
{
    match conf.vtype() {
        Some(vtype) => is_legal_typed(*operation, vtype, vstart),
        None => matches!(
            operation,
            VectorInstr::SetVli { .. } | VectorInstr::SetIvli { .. } | VectorInstr::SetVl { .. }
        ),
    }
}

/// Return whether a load or store is legal with this vector type, for each vstart (sections 3.4.2, 5.2, 5.3 and 7).
#[tactic(auto, unfolding(rv_model::specs::legality::Legality::is_legal, rv_model::specs::legality::Legality::operands))]
#[inline(always)]
pub fn legal_access(access: &AccessInstr, conf: &VConf) -> bool
    ensures { (vstart : ℕ) → result ≡ is_legal (Instr.Access access.now) conf.now.vtype vstart }
{
    match *access {
        AccessInstr::WholeLoad { .. } | AccessInstr::WholeStore { .. } => {
            has_legal_untyped_access(*access)
        }
        _ => {
            let Some(vtype) = conf.vtype() else {
                return false;
            };
            has_legal_access(*access, vtype)
        }
    }
}

/// Whether an instruction is legal, as the test in the definitions.
#[tactic(auto, unfolding(
// The definition of legality, and the operands of an instruction.
rv_model::specs::legality::Legality::is_legal, rv_model::specs::legality::Legality::operands,
// The rule of operands together.
rv_model::specs::legality::RegisterOperands::are_legal))]
#[inline(always)]
fn is_legal(instr: &Instr, conf: &VConf, vstart: u8) -> bool
    ensures { result ≡ is_legal instr.now conf.now.vtype vstart }
{
    match *instr {
        Instr::Vector(VectorInstr::Arith { arith, vd, vs2, vm }) => {
            legal_arith(arith, vd, vs2, vm, conf, vstart)
        }
        Instr::Vector(operation) => legal_other_operation(&operation, conf, vstart),
        Instr::Access(access) => legal_access(&access, conf),
        Instr::Scalar(_) | Instr::Csr(_) => true,
    }
}

/// Return whether an instruction is legal with this vector type and vstart; it doesn't depend on vl. Scalar
/// instructions are always legal.
#[tactic(auto, using(rv_model::proofs::legality_lemmas::Meaning::is_legal_means))]
#[inline(always)]
pub fn legal(instr: &Instr, conf: &VConf, vstart: u8) -> bool
    ensures value { result ≡ is_legal instr.now conf.now.vtype vstart }
    ensures meaning { (result ≡ true) ↔ IsLegal instr.now conf.now.vtype vstart }
{
    is_legal(instr, conf, vstart)
}
