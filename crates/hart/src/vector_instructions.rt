//! Instructions of the vector extension, which borrow a user's vector state. Each function returns the ticks
//! of its instruction if it ran; otherwise it returns 0, and saves the end and the ticks in `ending`.
#![tactic(auto, unfolding(rv_model::specs::step::Step::executed, rv_model::specs::step::Step::dirties))]

ghost use Rattle.std.specs.Prelude.{◌≡◌, ◌||◌, ◌≤◌, ◌⊎◌, List, bit_and, ℕ};
ghost use Rattle.std.specs.Option.{option_map};
ghost use Rattle.rv_decode.specs.Groups.{rows_where, is_other_operation_instr};
ghost use Rattle.rv_model.specs.declared.vector.policy.Policy.{Policy};
ghost use Rattle.rv_model.specs.instructions.Table.{scan, table};
ghost use Rattle.rv_model.specs.memory.Memory.{Memory};
ghost use Rattle.rv_model.specs.step.Hart.{hart_state};
ghost use Rattle.rv_model.specs.step.Step.{access_cause, after_vector, is_legal_end};
ghost use Rattle.hart.specs.States.{EndsBy, Executes, access_group};

use crate::ending::Ending;
use crate::faults::{fault, illegal};
use crate::retirement::retire;
use crate::ticks::access_ticks;
use crate::vectors::Vectors;
use crate::view::StepTerms;
use rv_decode::{
    decode_other_access, decode_other_operation, decode_table_operation, decode_unit_stride,
    has_funct6_outside_table, is_unit_stride,
};
use rv_model::{AccessInstr, Cause, Instr, Scalar, Seat, StepEnd, VEnd};
use vec_unit::{exec_access, exec_arith, exec_operation};
use vector_memory::UserBytes;

/// Return the cause of a fault of a load or store.
fn access_cause(store: bool) -> Cause
    ensures { result ≡ access_cause store }
{
    if store {
        Cause::StoreAccess
    } else {
        Cause::LoadAccess
    }
}

/// Complete the step of a vector instruction with this end and these ticks. The program counter advances if
/// the instruction is done. Each end but `VEnd::Illegal` marks the seat as dirty; an illegal instruction
/// takes one tick.
#[tactic(auto, using(crate::proofs::Endings::took_ticks))]
#[inline(always)]
fn retire_vector(
    end: VEnd,
    ticks: usize,
    word: u32,
    scalar: &mut Scalar,
    seat: &mut Seat,
    ending: &mut Ending,
) -> usize
    requires some { 1 ≤ ticks }
    ensures model { (memory : Memory) (policy : Policy) (output : List ℕ)
        → EndsBy (after_vector ticks end word)
        (hart_state scalar.old seat.old.state memory policy output)
        (hart_state scalar.new seat.new.state memory policy output) result ending.new }
    ensures state { seat.new.state ≡ seat.old.state }
    ensures dirty { seat.new.dirty ≡ (seat.old.dirty || is_legal_end end) }
{
    match end {
        VEnd::Done => {
            seat.dirty = true;
            let _ = retire(scalar);
            ticks
        }
        VEnd::Illegal => ending.in_one_tick(illegal(word, scalar)),
        VEnd::Fault { store, addr } => {
            seat.dirty = true;
            ending.set(fault(access_cause(store), addr, scalar), ticks)
        }
        VEnd::Cut { .. } => {
            seat.dirty = true;
            ending.set(StepEnd::Cut, ticks)
        }
    }
}

/// Execute the vector operation that a word encodes, if it has no row of its own in the manual's table of
/// funct6. The memory is a parameter for the contract only, which says that it is unchanged.
#[inline(never)]
fn execute_other_operation<M: UserBytes, V: Vectors>(
    word: u32,
    scalar: &mut Scalar,
    memory: &mut M,
    vectors: &mut V,
    terms: StepTerms,
    ending: &mut Ending,
) -> usize
    requires ready { V.ready vectors.old }
    requires opcode { bit_and word 0x7c ≡ 0x54 }
    requires row { scan table word ≡ scan (rows_where is_other_operation_instr) word }
    ensures { Executes M.memory M.with_memory V.ready V.lent V.back terms word
        scalar.old memory.old vectors.old scalar.new memory.new vectors.new result ending.new }
{
    let decoded = decode_other_operation(word);
    let Some(operation) = &decoded else {
        return ending.in_one_tick(illegal(word, scalar));
    };
    let seat = vectors.seat();
    // For the proof only: the vector length is one that the vector type allows.
    seat.state.conf.length_law();
    let end = exec_operation(operation, &mut seat.state, scalar, terms.policy);
    retire_vector(end, 1, word, scalar, seat, ending)
}

/// Execute the vector operation that a word with the opcode OP-V encodes; operations of the funct6 table are
/// decoded and executed inline. The memory is passed on for the contract only.
#[inline(never)]
fn execute_operation<M: UserBytes, V: Vectors>(
    word: u32,
    scalar: &mut Scalar,
    memory: &mut M,
    vectors: &mut V,
    terms: StepTerms,
    ending: &mut Ending,
) -> usize
    requires ready { V.ready vectors.old }
    requires opcode { bit_and word 0x7c ≡ 0x54 }
    ensures { Executes M.memory M.with_memory V.ready V.lent V.back terms word
        scalar.old memory.old vectors.old scalar.new memory.new vectors.new result ending.new }
{
    let Some(operation) = decode_table_operation(word) else {
        return execute_other_operation(word, scalar, memory, vectors, terms, ending);
    };
    let seat = vectors.seat();
    // For the proof only: the vector length is one that the vector type allows.
    seat.state.conf.length_law();
    let end = exec_arith(operation, &mut seat.state, scalar, terms.policy);
    retire_vector(end, 1, word, scalar, seat, ending)
}

/// Execute the vector load or store that a word encodes: one of unit stride, or any other one.
#[inline(never)]
fn execute_access<M: UserBytes, V: Vectors, const UNIT_STRIDE: bool>(
    word: u32,
    scalar: &mut Scalar,
    memory: &mut M,
    vectors: &mut V,
    terms: StepTerms,
    ending: &mut Ending,
) -> usize
    requires ready { V.ready vectors.old }
    requires row { scan table word ≡ scan (rows_where (access_group UNIT_STRIDE)) word }
    ensures { Executes M.memory M.with_memory V.ready V.lent V.back terms word
        scalar.old memory.old vectors.old scalar.new memory.new vectors.new result ending.new }
{
    let decoded = if UNIT_STRIDE {
        decode_unit_stride(word)
    } else {
        decode_other_access(word)
    };
    let Some(access) = &decoded else {
        return ending.in_one_tick(illegal(word, scalar));
    };
    let StepTerms { limit, policy } = terms;
    let seat = vectors.seat();
    // For the proof only: the vector length is one that the vector type allows.
    seat.state.conf.length_law();
    let vl = usize::from(seat.state.conf.vl());
    let vstart = usize::from(seat.state.vstart);
    let state = &mut seat.state;
    let end = exec_access::<M, UNIT_STRIDE>(access, state, scalar, memory, limit, policy);
    let ticks = access_ticks(access, limit, vl, vstart, &seat.state, end);
    retire_vector(end, ticks, word, scalar, seat, ending)
}

/// Execute the vector operation that a word with the opcode OP-V encodes.
#[inline(always)]
pub(crate) fn operation<M: UserBytes, V: Vectors>(
    word: u32,
    scalar: &mut Scalar,
    memory: &mut M,
    vectors: &mut V,
    terms: StepTerms,
    ending: &mut Ending,
) -> usize
    requires ready { V.ready vectors.old }
    requires opcode { bit_and word 0x7c ≡ 0x54 }
    ensures { Executes M.memory M.with_memory V.ready V.lent V.back terms word
        scalar.old memory.old vectors.old scalar.new memory.new vectors.new result ending.new }
{
    if has_funct6_outside_table(word) {
        execute_other_operation(word, scalar, memory, vectors, terms, ending)
    } else {
        execute_operation(word, scalar, memory, vectors, terms, ending)
    }
}

/// Execute the vector load or store that a word with the opcode LOAD-FP or STORE-FP encodes.
#[inline(always)]
pub(crate) fn access<M: UserBytes, V: Vectors>(
    word: u32,
    scalar: &mut Scalar,
    memory: &mut M,
    vectors: &mut V,
    terms: StepTerms,
    ending: &mut Ending,
) -> usize
    requires ready { V.ready vectors.old }
    requires opcode { (bit_and word 0x7c ≡ 0x04) ⊎ (bit_and word 0x7c ≡ 0x24) }
    ensures { Executes M.memory M.with_memory V.ready V.lent V.back terms word
        scalar.old memory.old vectors.old scalar.new memory.new vectors.new result ending.new }
{
    if is_unit_stride(word) {
        execute_access::<M, V, true>(word, scalar, memory, vectors, terms, ending)
    } else {
        execute_access::<M, V, false>(word, scalar, memory, vectors, terms, ending)
    }
}
