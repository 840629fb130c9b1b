//! Encoding of instructions.
ghost use Rattle.std.specs.Prelude.{◌≡◌, ◌<◌, ◌^◌, Some, true};
ghost use Rattle.rv_model.specs.instructions.Operations.{form_of, has_form, line, carry_line, line_bits, major_bits};
ghost use Rattle.rv_model.specs.instructions.Table.{bits, word_of, scan, table};
ghost use Rattle.rv_model.specs.lending.ListedBits.{Allowed};

use crate::fixed_bits::{
    branch_bits, count_bits, csr_bits, csr_immediate_bits, direction_bits, extend_bits,
    immediate_op_bits, load_bits, mask_logic_bits, mask_memory_bits, mask_to_scalar_bits,
    mask_unary_bits, move_bits, order_bits, register_op_bits, shift_immediate_bits,
    shift_immediate_word_bits, store_bits, system_bits, unit_bits, upper_bits, whole_move_bits,
    width_bits,
};
use crate::lines::{carry_line, line};
use crate::operands::operands;
use rv_model::instructions::operations::{Form, Line, Major};
use rv_model::{AccessInstr, Arith, Carry, CsrInstr, Instr, ScalarInstr, Source, VectorInstr};

/// Opcode and funct3 of a half of the funct6 table, by the form of the second operand.
fn major_bits(major: Major, form: Form) -> u64
    ensures value { result ≡ major_bits major form }
    ensures small { result < 2 ^ 32 }
{
    match (major, form) {
        (Major::Opi, Form::V) => 0x0057,
        (Major::Opi, Form::X) => 0x4057,
        (Major::Opi, Form::I) => 0x3057,
        (Major::Opm, Form::V) => 0x2057,
        (Major::Opm, Form::X) => 0x6057,
        (Major::Opm, Form::I) => 0x7057,
    }
}

/// The fixed bits of an operation of the funct6 table in one of its forms.
fn line_bits(line: Line, form: Form) -> u64
    ensures value { result ≡ line_bits line form }
    ensures small { result < 2 ^ 60 }
{
    (u64::from(line.funct6) << 26) + major_bits(line.major, form)
}

/// The form of a second operand: vector register, scalar register or immediate.
fn form_of(source: &Source) -> Form
    ensures { result ≡ form_of source.now }
{
    match *source {
        Source::V(_) => Form::V,
        Source::X(_) => Form::X,
        Source::I(_) => Form::I,
    }
}

/// The fixed bits of an operation of the funct6 table, in the form of its source.
fn arith_bits(arith: Arith) -> u64
    ensures value { result ≡ line_bits (line arith.0) (form_of arith.1) }
    ensures small { result < 2 ^ 60 }
    ensures allowed { has_form (line arith.0).forms (form_of arith.1) ≡ true }
{
    let (op, source) = arith.parts();
    line_bits(line(op), form_of(&source))
}

/// The fixed bits of an operation with v0 as an operand, in the form of its source.
fn carry_bits(carry: Carry) -> u64
    ensures value { result ≡ line_bits (carry_line carry.0) (form_of carry.1) }
    ensures small { result < 2 ^ 60 }
    ensures allowed { has_form (carry_line carry.0).forms (form_of carry.1) ≡ true }
{
    let (op, source) = carry.parts();
    line_bits(carry_line(op), form_of(&source))
}

/// The fixed bits of a scalar instruction.
fn scalar_code(instr: &ScalarInstr) -> u64
    ensures value { result ≡ bits (Instr.Scalar instr.now) }
    ensures small { result < 2 ^ 61 }
{
    match *instr {
        ScalarInstr::Upper { op, .. } => upper_bits(op),
        ScalarInstr::Jump { .. } => 0x6f,
        ScalarInstr::JumpRegister { .. } => 0x67,
        ScalarInstr::Branch { op, .. } => branch_bits(op),
        ScalarInstr::Load { op, .. } => load_bits(op),
        ScalarInstr::Store { op, .. } => store_bits(op),
        ScalarInstr::RegisterImmediate { op, .. } => immediate_op_bits(op),
        ScalarInstr::ShiftImmediate { op, .. } => shift_immediate_bits(op),
        ScalarInstr::ShiftImmediateWord { op, .. } => shift_immediate_word_bits(op),
        ScalarInstr::RegisterRegister { op, .. } => register_op_bits(op),
        ScalarInstr::Fence { .. } => 0x0f,
        ScalarInstr::System { op } => system_bits(op),
    }
}

/// The fixed bits of a vector instruction other than a load or store.
fn vector_code(instr: &VectorInstr) -> u64
    ensures value { result ≡ bits (Instr.Vector instr.now) }
    ensures small { result < 2 ^ 61 }
    ensures allowed { Allowed (Instr.Vector instr.now) }
{
    match *instr {
        VectorInstr::SetVli { .. } => 0x7057,
        VectorInstr::SetIvli { .. } => 0xc000_7057,
        VectorInstr::SetVl { .. } => 0x8000_7057,
        VectorInstr::Arith { arith, .. } => arith_bits(arith),
        VectorInstr::Carry { carry, .. } => carry_bits(carry),
        VectorInstr::Move { source, .. } => move_bits(form_of(&source)),
        VectorInstr::WholeMove { count, .. } => whole_move_bits(count),
        VectorInstr::MaskLogic { op, .. } => mask_logic_bits(op),
        VectorInstr::Compress { .. } => 0x5e00_2057,
        VectorInstr::MaskToScalar { op, .. } => mask_to_scalar_bits(op),
        VectorInstr::Extend { op, .. } => extend_bits(op),
        VectorInstr::MaskUnary { op, .. } => mask_unary_bits(op),
        VectorInstr::ElementIndex { .. } => 0x5008_a057,
        VectorInstr::MoveToScalar { .. } => 0x4200_2057,
        VectorInstr::MoveToVector { .. } => 0x4200_6057,
    }
}

/// The fixed bits of a vector load or store.
fn access_code(instr: &AccessInstr) -> u64
    ensures value { result ≡ bits (Instr.Access instr.now) }
    ensures small { result < 2 ^ 61 }
{
    match *instr {
        AccessInstr::UnitStride { op, width, .. } => unit_bits(op) + width_bits(width),
        AccessInstr::Strided {
            direction,
            width,
            ..
        } => direction_bits(direction) + 0x0800_0000 + width_bits(width),
        AccessInstr::Indexed {
            direction,
            order,
            width,
            ..
        } => direction_bits(direction) + order_bits(order) + width_bits(width),
        AccessInstr::WholeLoad { count, width, .. } => 0x07 + count_bits(count) + width_bits(width),
        AccessInstr::WholeStore { count, .. } => 0x27 + count_bits(count),
        AccessInstr::MaskAccess { direction, .. } => mask_memory_bits(direction),
    }
}

/// The fixed bits of an instruction.
fn code(instr: &Instr) -> u64
    ensures value { result ≡ bits instr.now }
    ensures small { result < 2 ^ 61 }
    ensures allowed { Allowed instr.now }
{
    match instr {
        Instr::Scalar(instr) => scalar_code(instr),
        Instr::Csr(CsrInstr::Register { op, .. }) => csr_bits(*op),
        Instr::Csr(CsrInstr::Immediate { op, .. }) => csr_immediate_bits(*op),
        Instr::Vector(instr) => vector_code(instr),
        Instr::Access(instr) => access_code(instr),
    }
}

/// Return the 32-bit word of an instruction.
#[tactic(auto, using(rv_model::proofs::instruction_lemmas::RoundTrips::small,
// Decoding returns the same instruction.
rv_model::proofs::instruction_lemmas::RoundTrips::back, rv_model::proofs::instruction_lemmas::RoundTrips::word_sum))]
pub fn encode(instr: &Instr) -> u32
    ensures word { result ≡ word_of instr.now }
    ensures row { scan table result ≡ Some instr.now }
{
    (code(instr) + operands(instr)) as u32
}
