//! The instruction cycle: fetch, decode, execute.
ghost use Rattle.std.specs.Prelude.{◌≡◌, ◌≢◌, ◌≤◌, None, Some, if◌then◌else◌, true};
ghost use Rattle.rv_model.specs.declared.memory.Access.TheVariants.{Fetch};
ghost use Rattle.rv_model.specs.step.Resumes.{StepGoesOn};
ghost use Rattle.rv_model.specs.step.Hart.{ends_after};
ghost use Rattle.rv_model.specs.memory.Memory.{can_access};
ghost use Rattle.rv_model.specs.step.Step.{dirties, fetched, step as step_spec, touches, word_at};
ghost use Rattle.hart.specs.States.{EndsBy, LeadsTo, Returns, SameParts, hart_of, shown};

use crate::ending::Ending;
use crate::faults::{fault, illegal};
use crate::scalar_instructions::execute_scalar;
use crate::system_instructions::execute_system;
use crate::vector_instructions::{access, operation};
use crate::vectors::Vectors;
use crate::view::{StepTerms, View};
use rv_decode::{Kind, kind_of};
use rv_model::{Access, Cause, GROUP_BYTES, StepEnd};
use vector_memory::UserBytes;

/// Return the 32-bit word at an address, without the fast path; `None` if it may not be fetched.
#[inline(never)]
fn fetch_slow<M: UserBytes>(memory: &M, pc: u64) -> Option<u32>
    ensures { result ≡ (if can_access Fetch (M.memory memory.now) pc 4
        then Some (word_at (M.memory memory.now) pc)
        else None) }
{
    let mut bytes = [0; 4];
    match memory.read(pc, Access::Fetch, &mut bytes) {
        Ok(()) => Some(u32::from_le_bytes(bytes)),
        Err(_) => None,
    }
}

/// Set `word` to the 32-bit word at an address. Return whether it may be fetched.
#[inline(always)]
pub fn fetch<M: UserBytes>(memory: &M, pc: u64, word: &mut u32) -> bool
    ensures allowed { result ≡ can_access Fetch (M.memory memory.now) pc 4 }
    ensures value { result ≡ true → word.new ≡ word_at (M.memory memory.now) pc }
{
    let mut bytes = [0; 4];
    if memory.try_read(pc, Access::Fetch, &mut bytes) {
        *word = u32::from_le_bytes(bytes);
        return true;
    }
    match fetch_slow(memory, pc) {
        Some(found) => {
            *word = found;
            true
        }
        None => false,
    }
}

/// Execute one instruction of a user within `limit` ticks. Return its ticks if it ran; otherwise return 0,
/// and save its end and its ticks in `ending`. The vector state is borrowed once if the instruction touches
/// it, and otherwise not at all. It is marked as dirty if the instruction changed it.
#[tactic(auto, unfolding(rv_model::specs::step::Step::step))]
#[inline(always)]
pub fn cycle<M: UserBytes, V: Vectors>(
    view: &mut View<'_, '_, '_, '_, M, V>,
    limit: usize,
    ending: &mut Ending,
) -> usize
    requires ready { V.ready view.old.vectors.now }
    requires limit { 1 ≤ limit }
    ensures model { EndsBy (step_spec limit)
        (hart_of M.memory V.lent view.old) (hart_of M.memory V.lent view.new) result ending.new }
    ensures memory { view.new.memory.now ≡ M.with_memory view.old.memory.now (M.memory view.new.memory.now) }
    ensures vectors { Returns V.ready V.lent V.back
        (touches (fetched (M.memory view.old.memory.now) view.old.scalar.now.pc))
        (dirties limit (fetched (M.memory view.old.memory.now) view.old.scalar.now.pc))
        (shown M.memory V.lent view.old) view.old.vectors.now view.new.vectors.now }
    ensures parts { SameParts view.old view.new }
{
    let (policy, pc) = (view.policy, view.scalar.pc);
    let terms = StepTerms { limit, policy };
    let scalar = &mut *view.scalar;
    let memory = &mut *view.memory;
    let vectors = &mut *view.vectors;
    let mut word = 0;
    if !fetch(memory, pc, &mut word) {
        return ending.in_one_tick(fault(Cause::FetchAccess, pc, scalar));
    }
    match kind_of(word) {
        Kind::Scalar(instr) => ending.in_one_tick(execute_scalar(&instr, scalar, memory)),
        Kind::Access => access(word, scalar, memory, vectors, terms, ending),
        Kind::Operation => operation(word, scalar, memory, vectors, terms, ending),
        Kind::System => {
            let output = &mut *view.output;
            execute_system(word, scalar, memory, vectors, output, ending)
        }
        Kind::Unknown => ending.in_one_tick(illegal(word, scalar)),
    }
}

/// Execute one instruction of a user within `limit` ticks. Return how it ended and the ticks that it took.
/// The vector state is borrowed once if the instruction touches it, and otherwise not at all. It is marked as
/// dirty if the instruction changed it.
#[inline(always)]
pub fn step<M: UserBytes, V: Vectors>(
    view: &mut View<'_, '_, '_, '_, M, V>,
    limit: usize,
) -> (StepEnd, usize)
    requires ready { V.ready view.old.vectors.now }
    requires limit { 1 ≤ limit }
    ensures model { LeadsTo (step_spec limit)
        (hart_of M.memory V.lent view.old) (hart_of M.memory V.lent view.new) result.0 result.1 }

    // No vector has more than `GROUP_BYTES` elements, so nothing is cut.
    ensures uncut { GROUP_BYTES ≤ limit → result.0 ≢ StepEnd.Cut }

    // If it is cut or faults, it can be resumed there, any number of times, in memories that may have more
    // mapped pages.
    ensures goes_on { StepGoesOn step_spec fetched limit (hart_of M.memory V.lent view.old)
        (ends_after result.1 result.0 (hart_of M.memory V.lent view.new)) }

    // All other state of the user's bytes and of the adapter is unchanged, and the view refers to the same
    // parts as before.
    ensures memory { view.new.memory.now ≡ M.with_memory view.old.memory.now (M.memory view.new.memory.now) }
    ensures vectors { Returns V.ready V.lent V.back
        (touches (fetched (M.memory view.old.memory.now) view.old.scalar.now.pc))
        (dirties limit (fetched (M.memory view.old.memory.now) view.old.scalar.now.pc))
        (shown M.memory V.lent view.old) view.old.vectors.now view.new.vectors.now }
    ensures parts { SameParts view.old view.new }
{
    let mut ending = Ending::new();
    let ticks = cycle(view, limit, &mut ending);
    ending.unpack(ticks)
}
