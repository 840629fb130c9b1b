//! Execution of one user's instructions.
ghost use Rattle.std.specs.Prelude.{◌≡◌, false, length, nat_le, true};
ghost use Rattle.hart.specs.States.{EndsBy, Returns};
ghost use Rattle.lazy_context.specs.LazyUnit.{IsSettled, record_of};
ghost use Rattle.rv_model.specs.machine.UserMachine.{steps as steps_spec, ticked};
ghost use Rattle.rv_model.specs.machine.VectorUnit.{unit_after_use, unit_after_uses};
ghost use Rattle.rv_model.specs.step.Hart.{hart_state};
ghost use Rattle.rv_model.specs.step.Step.{dirties, fetched, step as step_spec, touches};
ghost use Rattle.monitor_machine.specs.Lent.{StepsTo, TicksTo, TriesTo, VectorsMove, lent, lent_state};
ghost use Rattle.monitor_machine.specs.PartMoves.{PartsMove, present_of};
ghost use Rattle.monitor_machine.specs.Parts.{context_state, try_of};

use crate::context::Context;
use crate::parts::Parts;
use crate::trace::Trace;
use crate::user_adapters::{UserMemory, UserVectors};
use hart::{Ending, MAX_TICKS, StepTerms, Vectors, View, cycle, stop_of};
use rv_model::{StepEnd, Stop};
use std::alloc::Allocator;
use vector_memory::UserBytes;

/// Execute one instruction on the registers and the output buffer of a context, and on the borrowed
/// bytes and vector state. Return its ticks if it ran to its end; otherwise return 0, and store the
/// end in `ending`.
#[inline(always)]
fn step_context<M: UserBytes, V: Vectors>(
    context: &mut Context,
    memory: &mut M,
    vectors: &mut V,
    terms: StepTerms,
    ending: &mut Ending,
) -> usize
    requires policy { terms.policy ≡ context.old.policy }
    requires ready { V.ready vectors.old }
    ensures model { EndsBy (step_spec terms.limit)
        (context_state context.old (V.lent vectors.old).state (M.memory memory.old))
        (context_state context.new (V.lent vectors.new).state (M.memory memory.new)) result ending.new }
    ensures context { context.new ≡ record context.old { scalar = context.new.scalar; output = context.new.output } }
    ensures memory { memory.new ≡ M.with_memory memory.old (M.memory memory.new) }
    ensures vectors { Returns V.ready V.lent V.back (touches (fetched (M.memory memory.old) context.old.scalar.pc))
        (dirties terms.limit (fetched (M.memory memory.old) context.old.scalar.pc))
        (hart_state context.old.scalar (V.lent vectors.old).state (M.memory memory.old) context.old.policy)
        vectors.old vectors.new }
{
    let mut view = View {
        scalar: &mut context.scalar,
        memory,
        vectors,
        output: &mut context.output,
        policy: terms.policy,
    };
    cycle(&mut view, terms.limit, ending)
}

/// Execute one instruction on the vector state of a user in the vector unit of all users.
#[inline(always)]
fn step_lent<M: UserBytes>(
    context: &mut Context,
    memory: &mut M,
    vectors: &mut UserVectors<'_>,
    terms: StepTerms,
    ending: &mut Ending,
) -> usize
    requires policy { terms.policy ≡ context.old.policy }
    requires settled { IsSettled vectors.old.unit.now }
    ensures model { EndsBy (step_spec terms.limit)
        (context_state context.old (lent_state vectors.old) (M.memory memory.old))
        (context_state context.new (lent_state vectors.new) (M.memory memory.new)) result ending.new }
    ensures context { context.new ≡ record context.old { scalar = context.new.scalar; output = context.new.output } }
    ensures memory { memory.new ≡ M.with_memory memory.old (M.memory memory.new) }
    ensures vectors { VectorsMove vectors.old vectors.new }
    ensures unit { record_of vectors.new.unit.now ≡ unit_after_use vectors.old.user
        (try_of terms.limit context.old (lent_state vectors.old) (M.memory memory.old))
        (record_of vectors.old.unit.now) }
{
    // For the proof alone: the state that the unit lends, and the unit after its return.
    vectors.unit.lending_law(vectors.user);
    step_context(context, memory, vectors, terms, ending)
}

/// Try one instruction of a user. Return why the program stops, if it does, and the ticks that it
/// took. An instruction that ran to its end enters the trace; after one that was cut, the program
/// skips the breakpoint once.
#[inline(always)]
fn try_instruction<A: Allocator, M: UserBytes>(
    context: &mut Context,
    trace: &mut Trace<A>,
    vectors: &mut UserVectors<'_>,
    memory: &mut M,
    terms: StepTerms,
    ending: &mut Ending,
) -> (Option<Stop>, usize)
    requires policy { terms.policy ≡ context.old.policy }
    requires settled { IsSettled vectors.old.unit.now }
    ensures run { TriesTo terms.limit (lent M.memory context.old trace.old vectors.old memory.old)
        (lent M.memory context.new trace.new vectors.new memory.new) result.0 result.1 }
    ensures entered { context.new.entered ≡ context.old.entered }
    ensures policy { context.new.policy ≡ context.old.policy }
    ensures breakpoints { context.new.breakpoints ≡ context.old.breakpoints }
    ensures memory { memory.new ≡ M.with_memory memory.old (M.memory memory.new) }
    ensures vectors { VectorsMove vectors.old vectors.new }
{
    let addr = context.scalar.pc;
    let ticks = step_lent(context, memory, vectors, terms, ending);
    let (end, ticks) = ending.unpack(ticks);
    context.fresh = false;
    if matches!(end, StepEnd::Ran) {
        trace.record(addr);
        return (None, ticks);
    }
    if matches!(end, StepEnd::Cut) {
        context.fresh = true;
    }
    (stop_of(end), ticks)
}

/// Execute `run_steps` on the state that a user's instructions borrow.
#[inline(always)]
fn run_steps_lent<A: Allocator, M: UserBytes>(
    context: &mut Context,
    trace: &mut Trace<A>,
    vectors: &mut UserVectors<'_>,
    memory: &mut M,
    count: usize,
) -> Option<Stop>
    requires settled { IsSettled vectors.old.unit.now }
    ensures run { StepsTo count true (lent M.memory context.old trace.old vectors.old memory.old)
        (lent M.memory context.new trace.new vectors.new memory.new) result }
    ensures entered { context.new.entered ≡ context.old.entered }
    ensures memory { memory.new ≡ M.with_memory memory.old (M.memory memory.new) }
    ensures vectors { VectorsMove vectors.old vectors.new }
{
    let policy = context.policy;
    let mut ending = Ending::new();
    let mut skip_once = true;
    for _ in 0..count {
        if context.should_break(context.is_watched(), skip_once) {
            return Some(Stop::Breakpoint);
        }
        skip_once = false;
        let limit = MAX_TICKS;
        let terms = StepTerms { limit, policy };
        let (stop, _) = try_instruction(context, trace, vectors, memory, terms, &mut ending);
        if let Some(stop) = stop {
            return Some(stop);
        }
    }
    None
}

/// Execute at most `count` instructions; fewer if one stops the program, or if a breakpoint is at
/// one other than the first. Return why the program stopped, if it did.
pub(crate) fn run_steps<A: Allocator>(
    parts: &mut Parts<'_, '_, '_, A>,
    trace: &mut Trace<A>,
    count: usize,
) -> Option<Stop>
    ensures next { present_of parts.new trace.new ≡ (steps_spec count true (present_of parts.old trace.old)).state }
    ensures stop { (steps_spec count true (present_of parts.old trace.old)).stop ≡ result }
    ensures entered { parts.new.context.now.entered ≡ parts.old.context.now.entered }
    ensures parts { PartsMove parts.old parts.new (unit_after_uses parts.old.user
        (steps_spec count true (present_of parts.old trace.old)).uses (record_of parts.old.unit.now)) }
{
    let user = parts.user;
    let mut memory = UserMemory {
        pool: &mut *parts.pool,
        user,
    };
    let mut vectors = UserVectors {
        unit: &mut *parts.unit,
        user,
    };
    run_steps_lent(&mut *parts.context, trace, &mut vectors, &mut memory, count)
}

/// Execute `run_ticks` on the state that a user's instructions borrow. The user has no breakpoint
/// unless `watched`.
#[inline(always)]
fn run_ticks_lent<A: Allocator, M: UserBytes>(
    context: &mut Context,
    trace: &mut Trace<A>,
    vectors: &mut UserVectors<'_>,
    memory: &mut M,
    quantum: usize,
    watched: bool,
) -> Option<Stop>
    requires watched { watched ≡ false → nat_le (length context.old.breakpoints) 0 ≡ true }
    requires settled { IsSettled vectors.old.unit.now }
    ensures run { TicksTo quantum (lent M.memory context.old trace.old vectors.old memory.old)
        (lent M.memory context.new trace.new vectors.new memory.new) result }
    ensures entered { context.new.entered ≡ context.old.entered }
    ensures memory { memory.new ≡ M.with_memory memory.old (M.memory memory.new) }
    ensures vectors { VectorsMove vectors.old vectors.new }
{
    let policy = context.policy;
    let mut ending = Ending::new();
    let mut left = quantum;
    while left > 0 {
        if context.should_break(watched, context.fresh) {
            return Some(Stop::Breakpoint);
        }
        let limit = left;
        let terms = StepTerms { limit, policy };
        let (stop, ticks) = try_instruction(context, trace, vectors, memory, terms, &mut ending);
        if let Some(stop) = stop {
            return Some(stop);
        }
        left -= ticks;
    }
    None
}

/// Execute the instructions of `quantum` ticks; fewer if one stops the program, or if a breakpoint
/// stops it. A program that skips the breakpoint once skips it at the first instruction. Return why
/// the program stopped, if it did.
pub(crate) fn run_ticks<A: Allocator>(
    parts: &mut Parts<'_, '_, '_, A>,
    trace: &mut Trace<A>,
    quantum: usize,
) -> Option<Stop>
    ensures next { present_of parts.new trace.new ≡ (ticked quantum (present_of parts.old trace.old)).state }
    ensures stop { (ticked quantum (present_of parts.old trace.old)).stop ≡ result }
    ensures entered { parts.new.context.now.entered ≡ parts.old.context.now.entered }
    ensures parts { PartsMove parts.old parts.new (unit_after_uses parts.old.user
        (ticked quantum (present_of parts.old trace.old)).uses (record_of parts.old.unit.now)) }
{
    let user = parts.user;
    let mut memory = UserMemory {
        pool: &mut *parts.pool,
        user,
    };
    let mut vectors = UserVectors {
        unit: &mut *parts.unit,
        user,
    };
    let context = &mut *parts.context;
    // Two copies of the loop; the second one tests no breakpoints.
    if context.is_watched() {
        run_ticks_lent(context, trace, &mut vectors, &mut memory, quantum, true)
    } else {
        run_ticks_lent(context, trace, &mut vectors, &mut memory, quantum, false)
    }
}
