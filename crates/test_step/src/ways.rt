//! Executes a word by a step of the hart, or by the vector unit alone, and checks its end.
ghost use Rattle.std.specs.Prelude.{◌≡◌};
ghost use Rattle.rv_model.specs.step.Step.{is_vector};

use crate::ends::Ending;
use crate::lending::{CODE, UserMemory};
use crate::shapes::Shape;
use arrayvec::ArrayVec;
use hart::{SingleSlot, Vectors, View, step};
use rv_decode::decode;
use rv_model::{Cause, Instr, OUTPUT_SIZE, Policy, Scalar, StepEnd, VEnd, VState};
use vec_unit::exec;
use vector_memory::UserBytes;

/// The maximum number of indices that a load or store executes.
pub(crate) const LIMIT: usize = 7;

/// The executor of an instruction: a step of the hart, or the vector unit alone.
#[derive(Clone, Copy, PartialEq, Eq)]
pub(crate) enum Way {
    Step,
    Exec,
}

/// An instruction and its executor: its word, whether it is masked, and its operands.
#[derive(Clone, Copy, Drop)]
pub(crate) struct Case<'a> {
    pub way: Way,
    pub word: u32,
    pub masked: bool,
    pub shape: &'a Shape,
}

/// Whether an instruction belongs to the vector extension.
fn is_vector(instr: &Instr) -> bool
    ensures { result ≡ is_vector instr.now }
{
    matches!(instr, Instr::Vector(_) | Instr::Access(_))
}

/// Executes the instruction of a word in the vector unit. `None` if it isn't an instruction of the vector extension.
fn run_exec<M: UserBytes>(
    word: u32,
    state: &mut VState,
    scalar: &mut Scalar,
    memory: &mut M,
    policy: Policy,
) -> Option<VEnd> {
    let Some(instr) = decode(word) else {
        return None;
    };
    if is_vector(&instr) {
        Some(exec(&instr, state, scalar, memory, LIMIT, policy))
    } else {
        None
    }
}

/// Executes the word at the program counter by a step. Returns the end of the step, and the ticks that it took.
fn run_step<M: UserBytes, V: Vectors>(
    vectors: &mut V,
    scalar: &mut Scalar,
    memory: &mut M,
    policy: Policy,
) -> (StepEnd, usize)
    requires { V.ready vectors.old }
{
    let mut output: ArrayVec<u8, OUTPUT_SIZE> = ArrayVec::new();
    let mut view = View {
        scalar,
        memory,
        vectors,
        output: &mut output,
        policy,
    };
    step(&mut view, LIMIT)
}

/// The end of a step whose instruction ends with `end`, and the program counter after it.
fn step_end(end: VEnd, word: u32) -> (StepEnd, u64) {
    let (cause, value) = match end {
        VEnd::Done => return (StepEnd::Ran, CODE + 4),
        VEnd::Cut { .. } => return (StepEnd::Cut, CODE),
        VEnd::Illegal => (Cause::IllegalInstruction, u64::from(word)),
        VEnd::Fault { store: false, addr } => (Cause::LoadAccess, addr),
        VEnd::Fault { store: true, addr } => (Cause::StoreAccess, addr),
    };
    let fault = StepEnd::Fault {
        cause,
        pc: CODE,
        value,
    };
    (fault, CODE)
}

impl Case<'_> {
    /// Executes the word, which is in memory, and returns whether it ends as expected.
    pub(crate) fn ends_so(
        &self,
        wanted: Ending,
        policy: Policy,
        vectors: &mut SingleSlot,
        scalar: &mut Scalar,
        memory: &mut UserMemory,
    ) -> bool {
        match self.way {
            Way::Step => {
                let (end, ticks) = run_step(vectors, scalar, memory, policy);
                (end, scalar.pc) == step_end(wanted.end, self.word) && ticks as u64 == wanted.ticks
            }
            Way::Exec => {
                let state = &mut vectors.seat.state;
                run_exec(self.word, state, scalar, memory, policy) == Some(wanted.end)
            }
        }
    }
}
