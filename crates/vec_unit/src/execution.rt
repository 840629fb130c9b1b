//! Execution of one vector instruction.
ghost use Rattle.std.specs.Prelude.{◌≡◌, ◌≢◌, ◌≤◌, IsTrue, List, ℕ};
ghost use Rattle.rv_model.specs.step.Hart.{hart_state};
ghost use Rattle.rv_model.specs.step.Resumes.{InstructionGoesOn};
ghost use Rattle.rv_model.specs.step.Step.{is_vector, operation_step, vector_ends, vector_executed};
ghost use Rattle.rv_model.specs.legality.Legality.{is_legal};
ghost use Rattle.rv_model.specs.lending.OtherOperations.{is_other_operation};
ghost use Rattle.vec_unit.specs.Steps.{Performs};

use crate::arithmetic::perform_arith;
use crate::memory_instructions::exec_access;
use crate::other_operations::perform_typed;
use crate::vset::{configure, requested_length};
use reg_groups::{legal_arith, legal_other_operation};
use rv_model::{ArithOperation, Instr, Policy, RequestedLength, Scalar, VEnd, VState, VectorInstr};
use vector_memory::UserBytes;

/// Execute a legal vector operation outside of the funct6 table.
#[tactic(auto, unfolding(rv_model::specs::step::Step::operation_step), using(crate::proofs::TypedSteps::by_type))]
#[inline(always)]
fn perform_other_operation(
    operation: &VectorInstr,
    state: &mut VState,
    scalar: &mut Scalar,
    policy: Policy,
) -> VEnd
    requires other_operation { IsTrue (is_other_operation operation.now) }
    requires legal { IsTrue (is_legal (Instr.Vector operation.now) state.old.conf.vtype state.old.vstart) }
    ensures model { Performs (operation_step operation.now) policy scalar.old state.old result scalar.new state.new }
    ensures illegal_state { result ≡ VEnd.Illegal → state.new ≡ state.old }
    ensures illegal_scalar { result ≡ VEnd.Illegal → scalar.new ≡ scalar.old }
{
    match *operation {
        VectorInstr::SetVli { rd, rs1, vtype } => {
            let length = requested_length(rd, rs1, scalar);
            configure(rd, u64::from(vtype.value()), length, state, scalar);
        }
        VectorInstr::SetIvli { rd, avl, vtype } => {
            let length = RequestedLength::Elements(u64::from(avl.value()));
            configure(rd, u64::from(vtype.value()), length, state, scalar);
        }
        VectorInstr::SetVl { rd, rs1, rs2 } => {
            let length = requested_length(rd, rs1, scalar);
            configure(rd, scalar.read(rs2), length, state, scalar);
        }
        _ => {
            let Some(vtype) = state.conf.vtype() else {
                return VEnd::Illegal;
            };
            perform_typed(operation, vtype, policy, state, scalar);
            state.vstart = 0;
        }
    }
    VEnd::Done
}

/// Execute a vector operation of the funct6 table for a user, passed as its operands, if it is legal. The result
/// and all effects are the same as those of `exec`.
#[tactic(auto, unfolding(rv_model::specs::step::Step::vector_executed))]
#[inline(always)]
pub fn exec_arith(
    operation: ArithOperation,
    state: &mut VState,
    scalar: &Scalar,
    policy: Policy,
) -> VEnd
    ensures model { (limit : ℕ) → Performs (vector_executed limit
        (Instr.Vector (VectorInstr.Arith operation.arith operation.vd operation.vs2 operation.unmasked)))
        policy scalar.now state.old result scalar.now state.new }

    // An illegal instruction leaves the state unchanged.
    ensures illegal_state { result ≡ VEnd.Illegal → state.new ≡ state.old }

    // It never ends with `Cut`, since it isn't a load or store.
    ensures uncut { (index : ℕ) → result ≢ VEnd.Cut index }
{
    let ArithOperation {
        arith,
        vd,
        vs2,
        unmasked,
    } = operation;
    if !legal_arith(arith, vd, vs2, unmasked, &state.conf, state.vstart) {
        return VEnd::Illegal;
    }
    perform_arith(operation, state, scalar, policy)
}

/// Execute a vector operation outside of the funct6 table for a user, if it is legal. The result and all effects
/// are the same as those of `exec`.
#[tactic(auto, unfolding(rv_model::specs::step::Step::vector_executed))]
#[inline(always)]
pub fn exec_operation(
    operation: &VectorInstr,
    state: &mut VState,
    scalar: &mut Scalar,
    policy: Policy,
) -> VEnd
    requires other_operation { IsTrue (is_other_operation operation.now) }
    ensures model { (limit : ℕ) → Performs (vector_executed limit (Instr.Vector operation.now))
        policy scalar.old state.old result scalar.new state.new }

    // An illegal instruction leaves the state unchanged.
    ensures illegal_state { result ≡ VEnd.Illegal → state.new ≡ state.old }
    ensures illegal_scalar { result ≡ VEnd.Illegal → scalar.new ≡ scalar.old }
{
    if !legal_other_operation(operation, &state.conf, state.vstart) {
        return VEnd::Illegal;
    }
    perform_other_operation(operation, state, scalar, policy)
}

/// Execute a vector instruction of a user, if it is legal. A load or store accesses the elements of at most `limit`
/// indices. The program counter is unchanged. Return how the instruction ended.
#[inline(never)]
pub fn exec<M: UserBytes>(
    instr: &Instr,
    state: &mut VState,
    scalar: &mut Scalar,
    memory: &mut M,
    limit: usize,
    policy: Policy,
) -> VEnd
    requires vector { IsTrue (is_vector instr.now) }
    requires limit { 1 ≤ limit }
    ensures model { (output : List ℕ)
        → vector_executed limit instr.now (hart_state scalar.old state.old (M.memory memory.old) policy output)
        ≡ vector_ends result (hart_state scalar.new state.new (M.memory memory.new) policy output) }

    // If it stops at the limit or faults, it can be restarted there, any number of times, also in memories that
    // have grown.
    ensures restarts { (output : List ℕ)
        → InstructionGoesOn limit instr.now (hart_state scalar.old state.old (M.memory memory.old) policy output)
        (vector_ends result (hart_state scalar.new state.new (M.memory memory.new) policy output)) }

    // All other parts of the user's bytes are unchanged.
    ensures memory { memory.new ≡ M.with_memory memory.old (M.memory memory.new) }

    // An illegal instruction leaves the state unchanged.
    ensures illegal_state { result ≡ VEnd.Illegal → state.new ≡ state.old }
    ensures illegal_scalar { result ≡ VEnd.Illegal → scalar.new ≡ scalar.old }
    ensures illegal_memory { result ≡ VEnd.Illegal → memory.new ≡ memory.old }
{
    // For the proof alone: the vector length is one that the vector type allows.
    state.conf.length_law();
    match instr {
        Instr::Vector(VectorInstr::Arith { arith, vd, vs2, vm }) => {
            let operation = ArithOperation {
                arith: *arith,
                vd: *vd,
                vs2: *vs2,
                unmasked: *vm,
            };
            exec_arith(operation, state, scalar, policy)
        }
        Instr::Vector(operation) => exec_operation(operation, state, scalar, policy),
        Instr::Access(access) => {
            exec_access::<M, false>(access, state, scalar, memory, limit, policy)
        }
        Instr::Scalar(_) | Instr::Csr(_) => unreachable!(),
    }
}
