//! Vector loads and stores: legality, filling of agnostic elements, and the end of the instruction. `vector_memory`
//! accesses the memory ("V" Vector Extension 1.0, sections 3.4.3, 3.7, 5.4 and chapter 7).
ghost use Rattle.std.specs.Prelude.{◌≡◌, ◌≢◌, ◌≤◌, IfSome, IsTrue, false, true};
ghost use Rattle.rv_model.specs.lending.GroupBounds.{SegmentsInside};
ghost use Rattle.rv_model.specs.legality.Legality.{is_legal};
ghost use Rattle.rv_model.specs.step.MemoryStep.{access_end};
ghost use Rattle.rv_model.specs.step.Step.{performed, vector_executed};
ghost use Rattle.vec_unit.specs.MemoryInstructions.{
  direction_of,
  filled_by,
  groups_of,
  is_unmasked,
  nothing,
  tail_fields,
  with_filled,
};
ghost use Rattle.vec_unit.specs.Steps.{Accesses};

use crate::body::body_under;
use crate::destination::agnostic_under;
use crate::tails::{Fields, fill_tails};
use reg_groups::{emul, legal_access, mask_register};
use rv_model::instructions::operations::{Direction, UnitOp};
use rv_model::{AccessInstr, Instr, MemEnd, Policy, Scalar, Sew, VEnd, VFile, VState, VType};
use vector_memory::UserBytes;

/// The direction of an access: load or store.
#[inline(always)]
fn direction_of(access: &AccessInstr) -> Direction
    ensures { result ≡ direction_of access.now }
{
    match *access {
        AccessInstr::UnitStride { op, .. } => match op {
            UnitOp::Load | UnitOp::FaultOnlyFirst => Direction::Load,
            UnitOp::Store => Direction::Store,
        },
        AccessInstr::Strided { direction, .. } => direction,
        AccessInstr::Indexed { direction, .. } => direction,
        AccessInstr::WholeLoad { .. } => Direction::Load,
        AccessInstr::WholeStore { .. } => Direction::Store,
        AccessInstr::MaskAccess { direction, .. } => direction,
    }
}

/// The end of the instruction, for the end of its memory access.
#[inline(always)]
fn access_end(access: &AccessInstr, end: MemEnd) -> VEnd
    ensures value { result ≡ access_end (direction_of access.now) end }
    ensures executed { result ≢ VEnd.Illegal }
{
    match end {
        MemEnd::Done => VEnd::Done,
        MemEnd::Fault { addr, .. } => VEnd::Fault {
            store: matches!(direction_of(access), Direction::Store),
            addr,
        },
        MemEnd::Cut { index } => VEnd::Cut { index },
    }
}

/// Execute a legal load or store that fills no elements. Return how it ended.
#[inline(always)]
fn perform_unfilled<M: UserBytes>(
    access: &AccessInstr,
    state: &mut VState,
    scalar: &Scalar,
    memory: &mut M,
    limit: usize,
) -> VEnd
    requires limit { 1 ≤ limit }
    requires legal { IsTrue (is_legal (Instr.Access access.now) state.old.conf.vtype state.old.vstart) }
    ensures model { (policy : Policy) → filled_by access.now policy state.old ≡ nothing
        → Accesses (performed limit (Instr.Access access.now)) policy scalar.now
        state.old (M.memory memory.old) result state.new (M.memory memory.new) }
    ensures memory { memory.new ≡ M.with_memory memory.old (M.memory memory.new) }
    ensures executed { result ≢ VEnd.Illegal }
{
    let end = vector_memory::run(access, state, scalar, memory, limit, false);
    access_end(access, end)
}

/// Whether an access is unmasked.
fn is_unmasked(access: &AccessInstr) -> bool
    ensures { result ≡ is_unmasked access.now }
{
    match *access {
        AccessInstr::UnitStride { vm, .. } => vm,
        AccessInstr::Strided { vm, .. } => vm,
        AccessInstr::Indexed { vm, .. } => vm,
        _ => true,
    }
}

/// The fields of an access whose tails are filled; `None` for an access of whole registers or of a mask.
fn tail_fields(access: &AccessInstr, vtype: VType) -> Option<Fields>
    ensures { result ≡ tail_fields access.now vtype }
{
    let (nf, vd, sew) = match *access {
        AccessInstr::UnitStride { width, nf, vd, .. } => (nf, vd, Sew::from_width(width)),
        AccessInstr::Strided { width, nf, vd, .. } => (nf, vd, Sew::from_width(width)),
        AccessInstr::Indexed { nf, vd, .. } => (nf, vd, vtype.sew),
        _ => return None,
    };
    Some(Fields {
        vd,
        nf,
        sew,
        emul: emul(sew.bits(), vtype),
    })
}

/// The elements that an access fills with ones: whether it fills the masked-off ones, and the fields whose tails it
/// fills.
#[derive(Clone, Copy)]
struct Filled {
    masked_off: bool,
    tails: Option<Fields>,
}

/// The elements that an access fills under a policy.
fn filled_by(access: &AccessInstr, state: &VState, policy: Policy) -> Filled
    ensures { result ≡ filled_by access.now policy state.now }
{
    let Some(vtype) = state.conf.vtype() else {
        return Filled {
            masked_off: false,
            tails: None,
        };
    };
    let mask = mask_register(&state.file);
    let body = body_under(is_unmasked(access), &mask, state);
    let agnostic = agnostic_under(policy, vtype, &body);
    let fills_tails = agnostic.fill_tail && matches!(direction_of(access), Direction::Load);
    Filled {
        masked_off: agnostic.fill_masked_off,
        tails: if fills_tails {
            tail_fields(access, vtype)
        } else {
            None
        },
    }
}

/// Whether an access fills no elements in any state. Accesses of whole registers and of masks never do; if
/// `UNIT_STRIDE`, the function omits the test for these.
#[inline(always)]
fn fills_no_elements<const UNIT_STRIDE: bool>(access: &AccessInstr, policy: Policy) -> bool
    ensures { (state : VState) → result ≡ true → filled_by access.now policy state ≡ nothing }
{
    if UNIT_STRIDE {
        return matches!(policy, Policy::Keep);
    }
    match *access {
        AccessInstr::WholeLoad { .. }
        | AccessInstr::WholeStore { .. }
        | AccessInstr::MaskAccess { .. } => true,
        _ => matches!(policy, Policy::Keep),
    }
}

/// Fill the tails of these fields, from `length` on, which is vl before the access, if the access is complete.
fn fill_tails_if_complete(tails: Option<Fields>, length: usize, end: MemEnd, file: &mut VFile)
    requires { IfSome tails (λ f. SegmentsInside (groups_of f) f.vd f.nf length) }
    ensures { file.new ≡ with_filled tails length end file.old }
{
    if let Some(fields) = tails
        && let MemEnd::Done = end
    {
        fill_tails(fields, length, file);
    }
}

/// Execute a legal load or store under a policy, for at most `limit` indices. Return how it ended.
#[inline(never)]
fn perform_access<M: UserBytes>(
    access: &AccessInstr,
    state: &mut VState,
    scalar: &Scalar,
    memory: &mut M,
    limit: usize,
    policy: Policy,
) -> VEnd
    requires limit { 1 ≤ limit }
    requires legal { IsTrue (is_legal (Instr.Access access.now) state.old.conf.vtype state.old.vstart) }
    ensures model { Accesses (performed limit (Instr.Access access.now)) policy scalar.now
        state.old (M.memory memory.old) result state.new (M.memory memory.new) }
    ensures memory { memory.new ≡ M.with_memory memory.old (M.memory memory.new) }
    ensures executed { result ≢ VEnd.Illegal }
{
    // For the proof alone: the vector length is one that the vector type allows.
    state.conf.length_law();
    let length = usize::from(state.conf.vl());
    let filled = filled_by(access, state, policy);
    let end = vector_memory::run(access, state, scalar, memory, limit, filled.masked_off);
    fill_tails_if_complete(filled.tails, length, end, &mut state.file);
    access_end(access, end)
}

/// Execute a vector load or store of a user, if it is legal, for at most `limit` indices. Return how it ended. The
/// caller that executes only unit-stride accesses sets `UNIT_STRIDE`, which saves a test; the result doesn't depend
/// on it. Each of the two callers inlines its own instance.
#[tactic(auto, unfolding(rv_model::specs::step::Step::vector_executed))]
#[inline(always)]
pub fn exec_access<M: UserBytes, const UNIT_STRIDE: bool>(
    access: &AccessInstr,
    state: &mut VState,
    scalar: &Scalar,
    memory: &mut M,
    limit: usize,
    policy: Policy,
) -> VEnd
    requires limit { 1 ≤ limit }
    ensures model { Accesses (vector_executed limit (Instr.Access access.now)) policy scalar.now
        state.old (M.memory memory.old) result state.new (M.memory memory.new) }

    // All other parts of the user's bytes are unchanged.
    ensures memory { memory.new ≡ M.with_memory memory.old (M.memory memory.new) }

    // An illegal instruction leaves the state unchanged.
    ensures illegal_state { result ≡ VEnd.Illegal → state.new ≡ state.old }
    ensures illegal_memory { result ≡ VEnd.Illegal → memory.new ≡ memory.old }
{
    if !legal_access(access, &state.conf) {
        return VEnd::Illegal;
    }
    if fills_no_elements::<UNIT_STRIDE>(access, policy) {
        return perform_unfilled(access, state, scalar, memory, limit);
    }
    // The other function gets a copy, so that the operands need no place in memory before.
    let copy = *access;
    perform_access(&copy, state, scalar, memory, limit, policy)
}
