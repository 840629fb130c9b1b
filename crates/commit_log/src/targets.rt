//! Registers that an instruction writes.
ghost use Rattle.std.specs.Prelude.{◌≡◌, ◌+◌, ◌*◌, ◌<◌, [], ℕ, None, Option, Some, if◌then◌else◌};
ghost use Rattle.rv_model.specs.declared.instructions.operations.Eew.{Eew};
ghost use Rattle.rv_model.specs.legality.Legality.{mask_result};
ghost use Rattle.rv_model.specs.legality.OperandShapes.{destination, shape_of};
ghost use Rattle.rv_model.specs.vector.Groups.{registers};
ghost use Rattle.rv_model.specs.step.MemoryStep.{reads_memory};
ghost use Rattle.rv_model.specs.step.Targets.{scalar_target, target_of_scalar, target_of_vector};
ghost use Rattle.commit_log.specs.Targets.{registers_from, vector_targets};

use reg_groups::{emul, register_count, registers};
use rv_model::instructions::operations::{
    Direction, MaskUnaryOp, RegisterCount, SystemOp, VectorOp,
};
use rv_model::{AccessInstr, CsrInstr, Field, Instr, ScalarInstr, Sew, VReg, VType, VectorInstr};
use vector_memory::unit_direction;

/// Return the scalar register that a scalar instruction writes; x0, which never changes, if it writes none. ECALL returns its result in
/// x10.
#[inline(always)]
fn target_of_scalar(instr: &ScalarInstr) -> u32
    ensures value { result ≡ target_of_scalar instr.now }
    ensures small { result < 32 }
{
    match instr {
        ScalarInstr::Upper { rd, .. }
        | ScalarInstr::Jump { rd, .. }
        | ScalarInstr::JumpRegister { rd, .. }
        | ScalarInstr::Load { rd, .. }
        | ScalarInstr::RegisterImmediate { rd, .. }
        | ScalarInstr::ShiftImmediate { rd, .. }
        | ScalarInstr::ShiftImmediateWord { rd, .. }
        | ScalarInstr::RegisterRegister { rd, .. } => rd.number(),
        ScalarInstr::System {
            op: SystemOp::Ecall,
        } => 10,
        _ => 0,
    }
}

/// Return the same for a vector instruction that neither loads nor stores.
#[inline(always)]
fn target_of_vector(instr: &VectorInstr) -> u32
    ensures value { result ≡ target_of_vector instr.now }
    ensures small { result < 32 }
{
    match instr {
        VectorInstr::SetVli { rd, .. }
        | VectorInstr::SetIvli { rd, .. }
        | VectorInstr::SetVl { rd, .. }
        | VectorInstr::MaskToScalar { rd, .. }
        | VectorInstr::MoveToScalar { rd, .. } => rd.number(),
        _ => 0,
    }
}

/// Return the scalar register that an instruction writes; x0, which never changes, if it writes none.
#[inline(always)]
pub(crate) fn scalar_target(instr: &Instr) -> u32
    ensures value { result ≡ scalar_target instr.now }
    ensures small { result < 32 }
{
    match instr {
        Instr::Scalar(instr) => target_of_scalar(instr),
        Instr::Csr(CsrInstr::Register { rd, .. } | CsrInstr::Immediate { rd, .. }) => rd.number(),
        Instr::Vector(instr) => target_of_vector(instr),
        Instr::Access(_) => 0,
    }
}

/// Sequence of `count` vector registers, from register `first` on.
#[derive(Clone, Copy)]
pub(crate) struct Registers {
    pub first: u32,
    pub count: u64,
}

/// Return a sequence of no vector registers.
#[inline(always)]
fn none() -> Registers
    ensures { result ≡ record { first = 0; count = 0 } }
{
    Registers { first: 0, count: 0 }
}

/// Return the registers of a group; `emul` is its multiplier, in eighths of a register.
#[inline(always)]
fn group(first: VReg, emul: u32) -> Registers
    ensures value { result ≡ record { first = first; count = 1 * registers emul } }
    ensures inside { result.first < 32 }
{
    Registers {
        first: first.number(),
        count: u64::from(registers(emul)),
    }
}

/// Return the registers of `nf` + 1 groups; `emul` is the multiplier of each, in eighths of a register.
#[inline(always)]
fn groups(first: VReg, nf: Field<3>, emul: u32) -> Registers
    ensures value { result ≡ record { first = first; count = (nf + 1) * registers emul } }
    ensures inside { result.first < 32 }
{
    Registers {
        first: first.number(),
        count: (u64::from(nf.value()) + 1) * u64::from(registers(emul)),
    }
}

/// Return the same registers for a load, and none for a store.
#[inline(always)]
fn loaded(direction: Direction, registers: Registers) -> Registers
    requires { registers.first < 32 }
    ensures value { registers_from result.first result.count
        ≡ (if reads_memory direction then registers_from registers.first registers.count else []) }
    ensures inside { result.first < 32 }
{
    match direction {
        Direction::Load => registers,
        Direction::Store => none(),
    }
}

/// Return the multiplier of the destination of an operation, in eighths of a register.
#[tactic(auto, using(crate::proofs::Destinations::permute_emul, crate::proofs::Destinations::wide_emul))]
#[inline(always)]
fn destination_emul(op: VectorOp, vtype: VType) -> u32
    ensures { (vd : ℕ) → result ≡ (destination (shape_of op) vd vtype).emul }
{
    match op {
        VectorOp::Binary(_)
        | VectorOp::FixedPoint(_)
        | VectorOp::MultiplyAdd(_)
        | VectorOp::NarrowShift(_)
        | VectorOp::Clip(_)
        | VectorOp::Permute(_) => u32::from(vtype.lmul.eighths()),
        VectorOp::Widen(_) | VectorOp::WideSource(_) | VectorOp::WidenMultiplyAdd(_) => {
            2 * u32::from(vtype.lmul.eighths())
        }
        VectorOp::CarryOut(_)
        | VectorOp::Compare(_)
        | VectorOp::Reduce(_)
        | VectorOp::WidenReduce(_) => 8,
    }
}

/// Return the multiplier of the destination of an operation on one mask, in eighths of a register.
#[inline(always)]
fn unary_emul(op: MaskUnaryOp, vtype: VType) -> u32
    ensures { (vd : ℕ) → result ≡ (mask_result op vd vtype).emul }
{
    match op {
        MaskUnaryOp::Viota => u32::from(vtype.lmul.eighths()),
        MaskUnaryOp::Scan(_) => 8,
    }
}

/// Return the vector registers that an instruction writes under a vector type, if it neither loads nor stores.
#[tactic(auto, using(crate::proofs::Destinations::alone_written, crate::proofs::Destinations::mask_written, crate::proofs::Destinations::shape_written), unfolding(rv_model::specs::legality::Legality::operands))]
#[inline(always)]
fn typed_targets(instr: &VectorInstr, vtype: VType) -> Registers
    ensures value { registers_from result.first result.count ≡ vector_targets (Instr.Vector instr.now) (Some vtype) }
    ensures inside { result.first < 32 }
{
    let lmul = u32::from(vtype.lmul.eighths());
    match instr {
        VectorInstr::Arith { arith, vd, .. } => {
            let (op, _source) = arith.parts();
            group(*vd, destination_emul(op, vtype))
        }
        VectorInstr::Carry {
            carry: _carry,
            vd,
            vs2: _vs2,
        } => group(*vd, lmul),
        VectorInstr::Move { vd, .. }
        | VectorInstr::Compress { vd, .. }
        | VectorInstr::Extend { vd, .. }
        | VectorInstr::ElementIndex { vd, .. } => group(*vd, lmul),
        VectorInstr::MaskUnary { op, vd, .. } => group(*vd, unary_emul(*op, vtype)),
        VectorInstr::MaskLogic { vd, .. } | VectorInstr::MoveToVector { vd, .. } => group(*vd, 8),
        VectorInstr::WholeMove { count, vd, .. } => {
            group(*vd, 8 * u32::from(register_count(*count)))
        }
        _ => none(),
    }
}

/// Return the registers of a whole-register load, whatever the vector type is.
#[inline(always)]
fn whole(count: RegisterCount, vd: VReg) -> Registers
    ensures value { (width : Eew) (rs1 : ℕ) (vtype : Option VType) → registers_from result.first result.count
        ≡ vector_targets (Instr.Access (AccessInstr.WholeLoad count width vd rs1)) vtype }
    ensures inside { result.first < 32 }
{
    group(vd, 8 * u32::from(register_count(count)))
}

/// Return the vector registers that a load writes without a vector type. Only whole-register loads write any.
#[tactic(auto, unfolding(rv_model::specs::legality::Legality::operands))]
#[inline(always)]
fn untyped_targets(instr: &AccessInstr) -> Registers
    ensures value { registers_from result.first result.count ≡ vector_targets (Instr.Access instr.now) None }
    ensures inside { result.first < 32 }
{
    match instr {
        AccessInstr::WholeLoad { count, vd, .. } => whole(*count, *vd),
        _ => none(),
    }
}

/// Return the vector registers that a load writes under a vector type.
#[tactic(auto, unfolding(rv_model::specs::legality::Legality::operands))]
#[inline(always)]
fn typed_access_targets(instr: &AccessInstr, vtype: VType) -> Registers
    ensures value { registers_from result.first result.count ≡ vector_targets (Instr.Access instr.now) (Some vtype) }
    ensures inside { result.first < 32 }
{
    match instr {
        AccessInstr::UnitStride {
            op,
            width,
            nf,
            vd,
            ..
        } => {
            let emul = emul(Sew::from_width(*width).bits(), vtype);
            loaded(unit_direction(*op), groups(*vd, *nf, emul))
        }
        AccessInstr::Strided {
            direction,
            width,
            nf,
            vd,
            ..
        } => {
            let emul = emul(Sew::from_width(*width).bits(), vtype);
            loaded(*direction, groups(*vd, *nf, emul))
        }
        AccessInstr::Indexed {
            direction,
            nf,
            vd,
            ..
        } => {
            let emul = u32::from(vtype.lmul.eighths());
            loaded(*direction, groups(*vd, *nf, emul))
        }
        AccessInstr::MaskAccess { direction, vd, .. } => loaded(*direction, group(*vd, 8)),
        AccessInstr::WholeLoad { count, vd, .. } => whole(*count, *vd),
        AccessInstr::WholeStore { .. } => none(),
    }
}

/// Return the vector registers that a load writes, under the vector type before it, if there is one.
#[inline(always)]
fn access_targets(instr: &AccessInstr, vtype: Option<VType>) -> Registers
    ensures value { registers_from result.first result.count ≡ vector_targets (Instr.Access instr.now) vtype }
    ensures inside { result.first < 32 }
{
    match vtype {
        Some(vtype) => typed_access_targets(instr, vtype),
        None => untyped_targets(instr),
    }
}

/// Return the vector registers that an instruction writes, under the vector type before it, if there is one.
#[tactic(auto, unfolding(rv_model::specs::legality::Legality::operands))]
#[inline(always)]
pub(crate) fn vector_targets(instr: &Instr, vtype: Option<VType>) -> Registers
    ensures value { registers_from result.first result.count ≡ vector_targets instr.now vtype }
    ensures inside { result.first < 32 }
{
    match instr {
        Instr::Vector(instr) => match vtype {
            Some(vtype) => typed_targets(instr, vtype),
            None => none(),
        },
        Instr::Access(instr) => access_targets(instr, vtype),
        Instr::Scalar(_) | Instr::Csr(_) => none(),
    }
}
