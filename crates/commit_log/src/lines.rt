//! Line of an instruction.
ghost use Rattle.std.specs.Prelude.{◌≡◌, ◌+◌, ◌*◌, ◌<◌, ◌≤◌, ◌++◌, [], ℕ, flat_map, length, if◌then◌else◌};
ghost use Rattle.rv_model.specs.declared.instructions.instruction.Instr.{Instr};
ghost use Rattle.rv_model.specs.step.Hart.{HartState};
ghost use Rattle.rv_model.specs.step.Step.{is_vector};
ghost use Rattle.commit_log.specs.Finds.{Finds, Retires};
ghost use Rattle.commit_log.specs.Lines.{instruction_line, printed_configuration, printed_scalar, printed_vectors};
ghost use Rattle.commit_log.specs.LineTexts.{configuration_text, line_text, place_text, scalar_text, vector_text};
ghost use Rattle.commit_log.specs.Targets.{registers_from, vector_targets};
ghost use Rattle.rv_model.specs.step.Targets.{scalar_target};
ghost use Rattle.rv_model.specs.vector.Groups.{register_of};

use crate::changes::push_changes;
use crate::memory_words::push_memory;
use crate::numbers::{push_decimal, push_hex8, push_hex16, push_number, push_register};
use crate::pre_state::PreState;
use crate::targets::{Registers, scalar_target, vector_targets};
use crate::text::{LINE_SIZE, TEXT_SIZE, Text};
use rv_model::{Instr, Reg, Scalar, VECTOR_REGISTERS, VReg, VState};

/// Append a scalar register and its value, unless it is x0.
#[inline(always)]
fn push_scalar(text: &mut Text, number: u32, scalar: &Scalar)
    requires number { number < 32 }
    requires room { length text.old + 23 ≤ TEXT_SIZE }
    ensures text { text.new ≡ text.old ++ flat_map scalar_text (printed_scalar number scalar.now) }
    ensures bound { length text.new ≤ length text.old + 23 }
{
    if number != 0 {
        text.push(b" x");
        push_number(text, number);
        text.push(b" 0x");
        push_hex16(text, scalar.read(Reg::new(number)));
    }
}

/// Append the vector type and the vector length, if there is a type.
#[inline(always)]
fn push_configuration(text: &mut Text, state: &VState)
    requires { length text.old + 30 ≤ TEXT_SIZE }
    ensures text { text.new ≡ text.old ++ flat_map configuration_text (printed_configuration state.now.conf) }
    ensures bound { length text.new ≤ length text.old + 30 }
{
    if let Some(vtype) = state.conf.vtype() {
        text.push(b" ");
        text.push(vtype.sew.name().as_bytes());
        text.push(b" ");
        text.push(vtype.lmul.name().as_bytes());
        text.push(b" l");
        push_decimal(text, u64::from(state.conf.vl()));
    }
}

/// Append the vector type and length after an instruction, if it is a vector instruction.
#[inline(always)]
fn push_type(text: &mut Text, instr: &Instr, state: &VState)
    requires { length text.old + 30 ≤ TEXT_SIZE }
    ensures text { text.new ≡ text.old
        ++ flat_map configuration_text (if is_vector instr.now then printed_configuration state.now.conf else []) }
    ensures bound { length text.new ≤ length text.old + 30 }
{
    match instr {
        Instr::Vector(_) | Instr::Access(_) => push_configuration(text, state),
        Instr::Scalar(_) | Instr::Csr(_) => {}
    }
}

/// Append a vector register and its bytes.
#[inline(always)]
fn push_vector(text: &mut Text, number: u32, state: &VState)
    requires number { number < 32 }
    requires room { length text.old + 71 ≤ TEXT_SIZE }
    ensures text { text.new ≡ text.old ++ vector_text (number, register_of state.now.file number) }
    ensures bound { length text.new ≡ length text.old + 71 }
{
    text.push(b" v");
    push_number(text, number);
    text.push(b" 0x");
    push_register(text, state.file.register(VReg::new(number)));
}

/// Append vector registers, each with its bytes.
#[inline(always)]
fn push_vectors(text: &mut Text, registers: Registers, state: &VState)
    requires inside { registers.first < 32 }
    requires room { length text.old + 2272 ≤ TEXT_SIZE }
    ensures text { text.new ≡ text.old
        ++ flat_map vector_text (printed_vectors state.now.file (registers_from registers.first registers.count)) }
    ensures bound { length text.new ≤ length text.old + 2272 }
{
    // A legal instruction writes no register past v31; the proof needs the bound.
    let room = u64::from(VECTOR_REGISTERS as u32 - registers.first);
    for place in 0..registers.count.min(room) {
        push_vector(text, registers.first + place as u32, state);
    }
}

/// Append the address of an instruction, and its word.
#[inline(always)]
fn push_place(text: &mut Text, pc: u64, word: u32)
    requires { length text.old + 43 ≤ TEXT_SIZE }
    ensures text { text.new ≡ text.old ++ place_text pc word }
    ensures bound { length text.new ≡ length text.old + 43 }
{
    text.push(b"core   0: 0 0x");
    push_hex16(text, pc);
    text.push(b" (0x");
    push_hex8(text, word);
    text.push(b")");
}

/// Append the registers that an instruction wrote: scalar registers, the vector type and length, and vector registers.
#[inline(always)]
fn push_registers(
    text: &mut Text,
    found: &PreState,
    instr: &Instr,
    scalar: &Scalar,
    vector: &VState,
)
    requires { length text.old + 2325 ≤ TEXT_SIZE }
    ensures text { text.new ≡ text.old ++ flat_map scalar_text (printed_scalar (scalar_target instr.now) scalar.now)
        ++ flat_map configuration_text (if is_vector instr.now then printed_configuration vector.now.conf else [])
        ++ flat_map vector_text (printed_vectors vector.now.file (vector_targets instr.now found.now.conf.vtype)) }
    ensures bound { length text.new ≤ length text.old + 2325 }
{
    push_scalar(text, scalar_target(instr), scalar);
    push_type(text, instr, vector);
    push_vectors(text, vector_targets(instr, found.conf.vtype()), vector);
}

/// Append the line of an instruction that completed, from the state before it and the registers after it.
#[inline(always)]
fn push_instruction(
    text: &mut Text,
    found: &PreState,
    instr: &Instr,
    scalar: &Scalar,
    vector: &VState,
)
    requires { length text.old + 90000 ≤ TEXT_SIZE }
    ensures text { (word : ℕ) (s : HartState) → Finds word (Some instr.now) s.scalar s.vector found.now
        → Retires instr.now s.vector vector.now.conf.vl → text.new ≡ text.old ++ line_text (instruction_line instr.now word s scalar.now vector.now) }
    ensures bound { length text.new ≤ length text.old + 90000 }
{
    push_place(text, found.pc, found.word);
    push_registers(text, found, instr, scalar, vector);
    push_changes(text, found, vector);
    push_memory(text, found, instr, vector.conf.vl());
    text.push(b"\n");
}

/// Append the line of an instruction that completed, from the state before it and the registers after it. Append nothing if the word isn't
/// an instruction.
#[inline(always)]
pub(crate) fn push_line(text: &mut Text, found: &PreState, scalar: &Scalar, vector: &VState)
    requires { length text.old + LINE_SIZE ≤ TEXT_SIZE }
    ensures text { (instr : Instr) (word : ℕ) (s : HartState) → Finds word (Some instr) s.scalar s.vector found.now
        → Retires instr s.vector vector.now.conf.vl → text.new ≡ text.old ++ line_text (instruction_line instr word s scalar.now vector.now) }
    ensures bound { length text.new ≤ length text.old + LINE_SIZE }
{
    if let Some(instr) = &found.instr {
        push_instruction(text, found, instr, scalar, vector);
    }
}
