//! Choices of a seed where the standard leaves them open, after each instruction of a run ("V" Vector Extension 1.0,
//! sections 3.4.3, 6.3 and 7.7).
ghost use Rattle.std.specs.Prelude.{◌≡◌, ◌≤◌, Some};
ghost use Rattle.rv_model.specs.declared.instructions.instruction.Instr.TheVariants as decoded;
ghost use Rattle.rv_model.specs.step.Hart.{HartState};
ghost use Rattle.open_choices.specs.Fills.{fill_of};
ghost use Rattle.open_choices.specs.OpenStep.{asked_by};
ghost use Rattle.recording.specs.Machines.{state_of};
ghost use Rattle.recording.specs.OpenRuns.{IsOpenAt, IsShort, asked_of_open, fill_of_open, first_of_open, has_run};

use crate::chooser::Chooser;
use crate::counting::word_at;
use crate::machine::SingleUserMachine;
use open_choices::{
    OpenGroup, Seed, SeedChoices, asked_length, choose_length, choose_ones, choose_trim,
    operation_group,
};
use rv_decode::decode;
use rv_model::instructions::operations::UnitOp;
use rv_model::{AccessInstr, Instr, Reg, RequestedLength, Scalar, StepEnd, VState, VectorInstr};
use vector_memory::UserBytes;

/// What an instruction leaves open.
#[derive(Clone, Copy)]
pub enum Open {
    Nothing,
    /// Elements of this group of a vector operation.
    Elements(OpenGroup),
    /// The length of a vset instruction with this scalar destination and request.
    Length(Reg, RequestedLength),
    /// The length of a fault-only-first load from this vstart.
    FirstOnly(u8),
}

/// The choices of a seed, and the number of instructions before the next one.
#[derive(Drop)]
pub struct OpenChooser {
    pub seed: Seed,
    pub done: u64,
    choice: Open,
}

impl OpenChooser {
    /// Return the chooser of a seed before the first instruction.
    pub fn new(seed: Seed) -> OpenChooser
        ensures seed { result.seed ≡ seed }
        ensures done { result.done ≡ 0 }
    {
        OpenChooser {
            seed,
            done: 0,
            choice: Open::Nothing,
        }
    }
}

/// Return whether an instruction with this end retired.
pub fn has_run(end: StepEnd) -> bool
    ensures { result ≡ has_run end }
{
    matches!(end, StepEnd::Ran)
}

/// Return the open elements of a vector operation that isn't a vset instruction.
fn open_elements(instr: &VectorInstr, scalar: &Scalar, state: &VState) -> Open
    ensures fill { (s : HartState) → s.scalar ≡ scalar.now → s.vector ≡ state.now
        → fill_of_open result ≡ fill_of (Some (decoded.Vector instr.now)) s }
    ensures asked { asked_of_open result ≡ None }
    ensures first { first_of_open result ≡ None }
    ensures short { IsShort result }
{
    let Some(vtype) = state.conf.vtype() else {
        return Open::Nothing;
    };
    match operation_group(instr, vtype, scalar, state) {
        Some(group) => Open::Elements(group),
        None => Open::Nothing,
    }
}

/// Return what a vector operation or a vset instruction leaves open.
fn open_vector(instr: &VectorInstr, scalar: &Scalar, state: &VState) -> Open
    ensures fill { (s : HartState) → s.scalar ≡ scalar.now → s.vector ≡ state.now
        → fill_of_open result ≡ fill_of (Some (decoded.Vector instr.now)) s }
    ensures asked { (s : HartState) → s.scalar ≡ scalar.now → asked_of_open result ≡ asked_by (Some (decoded.Vector instr.now)) s }
    ensures first { first_of_open result ≡ None }
    ensures short { IsShort result }
{
    match asked_length(instr, scalar) {
        Some((rd, length)) => Open::Length(rd, length),
        None => open_elements(instr, scalar, state),
    }
}

/// Return what the instruction at the program counter leaves open. The value is unspecified if a fetch isn't allowed.
pub fn open_at<M: UserBytes>(machine: &SingleUserMachine<M>) -> Open
    ensures { IsOpenAt (state_of M.memory machine.now) result }
{
    let state = &machine.vectors.seat.state;
    let Some(found) = decode(word_at(&machine.memory, machine.scalar.pc)) else {
        return Open::Nothing;
    };
    match found {
        Instr::Vector(instr) => open_vector(&instr, &machine.scalar, state),
        Instr::Access(
            AccessInstr::UnitStride {
                op: UnitOp::FaultOnlyFirst,
                ..
            },
        ) => Open::FirstOnly(state.vstart),
        _ => Open::Nothing,
    }
}

impl<M: UserBytes> Chooser<M> for OpenChooser {
    ghost use Rattle.recording.specs.OpenRuns.{IsOpenAt, seeded_from};

    ghost next = { λ c k s. seeded_from c.seed c.done k s };

    ghost prepared = { λ old found new. (new.seed ≡ old.seed) × (new.done ≡ old.done) × IsOpenAt found new.choice };

    fn before_step(&mut self, machine: &SingleUserMachine<M>) {
        self.choice = open_at(machine);
    }

    fn choose(&mut self, machine: &mut SingleUserMachine<M>, end: StepEnd) {
        self.done = self.done.wrapping_add(1);
        if !has_run(end) {
            return;
        }
        match &self.choice {
            Open::Nothing => {}
            Open::Elements(group) => {
                let choices = SeedChoices {
                    seed: self.seed,
                    number: self.done,
                };
                choose_ones(
                    &choices,
                    self.seed.kinds,
                    group,
                    &mut machine.vectors.seat.state.file,
                );
            }
            Open::Length(rd, length) => choose_length(
                &self.seed,
                self.done,
                *rd,
                *length,
                &mut machine.vectors.seat.state.conf,
                &mut machine.scalar,
            ),
            Open::FirstOnly(vstart) => {
                choose_trim(
                    &self.seed,
                    self.done,
                    *vstart,
                    &mut machine.vectors.seat.state.conf,
                );
            }
        }
    }
}
