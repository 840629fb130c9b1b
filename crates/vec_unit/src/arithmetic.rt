//! Execution of arithmetic instructions after the test of legality ("V" Vector Extension 1.0, chapter 11).
ghost use Rattle.std.specs.Prelude.{◌≡◌, ◌≢◌, ◌≤◌, IsTrue, Some, not, ℕ};
ghost use Rattle.rv_model.specs.vector.Groups.{group_type, vlmax, wide_type};
ghost use Rattle.rv_model.specs.legality.Legality.{is_legal};
ghost use Rattle.rv_model.specs.step.Step.{arith_step, typed, typed_step};
ghost use Rattle.vec_unit.specs.Arithmetic.{is_binary};
ghost use Rattle.vec_unit.specs.Steps.{Performs};

use crate::compare::CarryOutOperands;
use crate::destination::Target;
use crate::operands::{Sources, WithRounding, on};
use crate::operation::perform;
use crate::two_widths::{perform_narrowing, perform_single, perform_widening};
use crate::widen::WidenAccumulate;
use rv_model::instructions::operations::VectorOp;
use rv_model::{
    ArithOperation, Instr, Policy, Scalar, Source, VEnd, VReg, VState, VType, VectorInstr,
};

/// Execute a legal operation of the funct6 table other than `VectorOp::Binary`. The caller clears vstart.
#[tactic(auto, using(crate::proofs::LegalGroups::operation_groups))]
#[inline(never)]
fn perform_rest(
    op: VectorOp,
    sources: Sources,
    vd: VReg,
    unmasked: bool,
    vtype: VType,
    policy: Policy,
    state: &mut VState,
    scalar: &Scalar,
)
    requires legal { IsTrue (is_legal (Instr.Vector (VectorInstr.Arith (op, sources.source) vd sources.vs2 unmasked))
        (Some vtype) state.old.vstart) }
    requires rest { IsTrue (not (is_binary op)) }
    requires length { state.old.conf.vl ≤ vlmax vtype }
    ensures model { Performs (arith_step vtype (group_type vtype) (wide_type vtype) op sources.source
        vd sources.vs2 unmasked)
        policy scalar.now state.old VEnd.Done scalar.now (record state.new { vstart = 0 }) }
{
    let Sources { vs2, source } = sources;
    let target = Target::new(vd, unmasked, vtype, policy);
    match op {
        VectorOp::Binary(_) => unreachable!(),
        VectorOp::MultiplyAdd(op) => perform(&on(op, vs2, source), target, state, scalar),
        VectorOp::Compare(op) => perform(&on(op, vs2, source), target, state, scalar),
        VectorOp::CarryOut(op) => {
            let alone = target.unmasked;
            let op = CarryOutOperands { op, alone };
            perform(&on(op, vs2, source), target.whole_body(), state, scalar);
        }
        VectorOp::FixedPoint(op) => {
            let mode = state.vxrm;
            let op = WithRounding { op, mode };
            perform_single(&on(op, vs2, source), target, state, scalar);
        }
        VectorOp::Reduce(op) => perform(&on(op, vs2, source), target, state, scalar),
        VectorOp::Permute(op) => perform(&on(op, vs2, source), target, state, scalar),
        VectorOp::Widen(op) => perform_widening(&on(op, vs2, source), target, state, scalar),
        VectorOp::WideSource(op) => perform_widening(&on(op, vs2, source), target, state, scalar),
        VectorOp::WidenMultiplyAdd(op) => {
            let vd = target.vd;
            let op = WidenAccumulate { op, vd };
            perform_widening(&on(op, vs2, source), target, state, scalar);
        }
        VectorOp::NarrowShift(op) => perform_narrowing(&on(op, vs2, source), target, state, scalar),
        VectorOp::Clip(op) => {
            let mode = state.vxrm;
            let op = WithRounding { op, mode };
            perform_narrowing(&on(op, vs2, source), target, state, scalar);
        }
        VectorOp::WidenReduce(op) => on(op, vs2, source).perform(target, state, scalar),
    }
}

/// Execute a legal operation of the funct6 table.
#[tactic(auto, using(rv_model::proofs::legality_lemmas::Bounds::binary_inside))]
#[inline(always)]
pub(crate) fn perform_arith(
    operation: ArithOperation,
    state: &mut VState,
    scalar: &Scalar,
    policy: Policy,
) -> VEnd
    requires legal { IsTrue (is_legal
        (Instr.Vector (VectorInstr.Arith operation.arith operation.vd operation.vs2 operation.unmasked))
        state.old.conf.vtype state.old.vstart) }
    ensures model { Performs (typed state.old.conf.vtype
        (typed_step (VectorInstr.Arith operation.arith operation.vd operation.vs2 operation.unmasked)))
        policy scalar.now state.old result scalar.now state.new }
    ensures illegal { result ≡ VEnd.Illegal → state.new ≡ state.old }
    ensures uncut { (index : ℕ) → result ≢ VEnd.Cut index }
{
    let Some(vtype) = state.conf.vtype() else {
        return VEnd::Illegal;
    };
    let (op, source) = operation.arith.parts();
    let vs2 = operation.vs2;
    let target = Target::new(operation.vd, operation.unmasked, vtype, policy);
    match op {
        VectorOp::Binary(op) => {
            perform(&on(op, vs2, source), target, state, scalar);
        }
        _ => {
            // These are separate arguments: a `Target` passed to a function that isn't inlined would be stored in
            // memory.
            let ArithOperation { vd, unmasked, .. } = operation;
            let sources = Sources { vs2, source };
            perform_rest(op, sources, vd, unmasked, vtype, policy, state, scalar);
        }
    }
    state.vstart = 0;
    VEnd::Done
}
