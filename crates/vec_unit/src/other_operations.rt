//! Execution of operations outside of the funct6 table that need a vector type, after the test of legality ("V"
//! Vector Extension 1.0, sections 11.4, 11.15 and 11.16, and chapters 15 and 16).
ghost use Rattle.std.specs.Prelude.{◌≤◌, IsTrue, Some};
ghost use Rattle.rv_model.specs.vector.Groups.{vlmax};
ghost use Rattle.rv_model.specs.legality.Legality.{is_legal};
ghost use Rattle.rv_model.specs.step.Step.{typed_step};
ghost use Rattle.vec_unit.specs.Arithmetic.{is_typed};
ghost use Rattle.vec_unit.specs.Steps.{Performs};

use crate::compress::CompressOperation;
use crate::destination::Target;
use crate::extend::ExtendOperation;
use crate::masks::{
    IndexOperation, IotaOperation, count_mask, perform_logic, perform_scan, scalar_of_mask,
};
use crate::moves::Move;
use crate::operands::WithSources;
use crate::operation::{perform, perform_out_of_line};
use crate::scalar_moves::{MoveToVector, scalar_of_first};
use crate::whole_moves::perform_whole_move;
use rv_model::instructions::operations::MaskUnaryOp;
use rv_model::{GROUP_BYTES, Instr, Policy, Scalar, VEnd, VReg, VState, VType, VectorInstr};

/// Execute a legal operation on one mask. The caller clears vstart.
#[tactic(auto, using(crate::proofs::LegalGroups::mask_groups))]
#[inline(never)]
fn perform_mask_unary(
    op: MaskUnaryOp,
    vs2: VReg,
    target: Target,
    state: &mut VState,
    scalar: &Scalar,
)
    requires legal { IsTrue (is_legal (Instr.Vector (VectorInstr.MaskUnary op target.vd vs2 target.unmasked))
        (Some target.vtype) state.old.vstart) }
    requires length { state.old.conf.vl ≤ vlmax target.vtype }
    ensures model { Performs (typed_step (VectorInstr.MaskUnary op target.vd vs2 target.unmasked) target.vtype)
        target.policy scalar.now state.old VEnd.Done scalar.now (record state.new { vstart = 0 }) }
{
    match op {
        MaskUnaryOp::Scan(op) => perform_scan(op, target.vd, vs2, target.unmasked, state),
        MaskUnaryOp::Viota => {
            let mut counts = [0; GROUP_BYTES];
            count_mask(vs2, target.unmasked, state, &mut counts);
            perform(&IotaOperation { counts: &counts }, target, state, scalar);
        }
    }
}

/// Execute a legal operation under its vector type. The caller clears vstart. Functions that aren't inlined get
/// their operands as separate arguments, so that no `Target` needs a place in memory.
#[tactic(auto, using(crate::proofs::LegalGroups::typed_groups))]
#[inline(always)]
pub(crate) fn perform_typed(
    operation: &VectorInstr,
    vtype: VType,
    policy: Policy,
    state: &mut VState,
    scalar: &mut Scalar,
)
    requires typed { IsTrue (is_typed operation.now) }
    requires legal { IsTrue (is_legal (Instr.Vector operation.now) (Some vtype) state.old.vstart) }
    requires length { state.old.conf.vl ≤ vlmax vtype }
    ensures model { Performs (typed_step operation.now vtype) policy scalar.old state.old VEnd.Done scalar.new
        (record state.new { vstart = 0 }) }
{
    match *operation {
        VectorInstr::Carry { carry, vd, vs2 } => {
            let (op, source) = carry.parts();
            let operation = WithSources { op, vs2, source };
            perform_out_of_line::<_, true>(&operation, vd, vtype, policy, state, scalar);
        }
        VectorInstr::Move { source, vd } => {
            perform_out_of_line::<_, true>(&Move { source }, vd, vtype, policy, state, scalar);
        }
        VectorInstr::Extend { op, vd, vs2, vm } => {
            ExtendOperation { op, vs2 }.perform(Target::new(vd, vm, vtype, policy), state, scalar);
        }
        VectorInstr::MaskLogic { op, vd, vs1, vs2 } => perform_logic(op, vd, vs1, vs2, state),
        VectorInstr::MaskToScalar { op, rd, vs2, vm } => {
            scalar.write(rd, scalar_of_mask(op, vs2, vm, state));
        }
        VectorInstr::MaskUnary { op, vd, vs2, vm } => {
            perform_mask_unary(op, vs2, Target::new(vd, vm, vtype, policy), state, scalar);
        }
        VectorInstr::ElementIndex { vd, vm: true } => {
            perform_out_of_line::<_, true>(&IndexOperation, vd, vtype, policy, state, scalar);
        }
        VectorInstr::ElementIndex { vd, vm: false } => {
            perform_out_of_line::<_, false>(&IndexOperation, vd, vtype, policy, state, scalar);
        }
        VectorInstr::Compress { vd, vs1, vs2 } => {
            let operation = CompressOperation { vs1, vs2 };
            perform_out_of_line::<_, true>(&operation, vd, vtype, policy, state, scalar);
        }
        VectorInstr::MoveToScalar { rd, vs2 } => {
            scalar.write(rd, scalar_of_first(vs2, vtype, &state.file));
        }
        VectorInstr::MoveToVector { vd, rs1 } => {
            perform_out_of_line::<_, true>(&MoveToVector { rs1 }, vd, vtype, policy, state, scalar);
        }
        VectorInstr::WholeMove { count, vd, vs2 } => {
            perform_whole_move(count, vd, vs2, vtype, state);
        }
        _ => unreachable!(),
    }
}
