//! Reads the operand of each slot from the tokens.
ghost use Rattle.std.specs.Prelude.{◌≡◌, ◌≤◌, ◌<◌, ◌^◌, ◌+◌, ◌*◌, length};
ghost use Rattle.rv_model.specs.assembler.Numbers.{literal, register, number, at_most, in_steps, negated, csr};
ghost use Rattle.rv_model.specs.assembler.Slots.{one, half, signed_number, read, scale, read_mask};
ghost use Rattle.rv_model.specs.lending.Slots.{limit};
ghost use Rattle.rv_asm.specs.Places.{rest, Reads};

use crate::fault::AsmFault;
use crate::name::csr;
use crate::number::{number_up_to, register};
use crate::token::{next_token, take};
use crate::vector_type::vtype_at;
use rv_model::assembler::forms::{SignedField, Slot, UnsignedField};

/// Reads exactly this token, whose value is 0.
pub(crate) fn literal(word: &[u8], text: &[u8], at: usize) -> Result<(u32, usize), AsmFault>
    requires { at ≤ length text.now }
    ensures { Reads text.now result
        (one (length text.now + 1) (literal word.now) (rest text.now at)) }
{
    let (token, after) = take(text, at)?;
    if token.text == word {
        Ok((0, after))
    } else {
        Err(token.fault())
    }
}

/// Reads a register with this letter, `x` or `v`.
fn register_at(letter: u8, text: &[u8], at: usize) -> Result<(u32, usize), AsmFault>
    requires { at ≤ length text.now }
    ensures { Reads text.now result
        (one (length text.now + 1) (register letter) (rest text.now at)) }
{
    let (token, after) = take(text, at)?;
    match register(letter, token.text) {
        Some(value) => Ok((value, after)),
        None => Err(token.fault()),
    }
}

/// Reads a control register, by its name or its number.
fn csr_at(text: &[u8], at: usize) -> Result<(u32, usize), AsmFault>
    requires { at ≤ length text.now }
    ensures { Reads text.now result (one (length text.now + 1) csr (rest text.now at)) }
{
    let (token, after) = take(text, at)?;
    match csr(token.text) {
        Some(value) => Ok((value, after)),
        None => Err(token.fault()),
    }
}

/// Reads a number of at most `limit`.
fn unsigned_at(limit: u32, text: &[u8], at: usize) -> Result<(u32, usize), AsmFault>
    requires { at ≤ length text.now }
    ensures { Reads text.now result
        (one (length text.now + 1) (λ t. at_most limit (number t)) (rest text.now at)) }
{
    let (token, after) = take(text, at)?;
    match number_up_to(limit, token.text) {
        Some(value) => Ok((value, after)),
        None => Err(token.fault()),
    }
}

/// A number of at most `limit`, in units of `step`; `None` if it isn't a multiple of `step`.
fn in_steps(step: u32, limit: u32, text: &[u8]) -> Option<u32>
    requires { 1 ≤ step }
    ensures { result ≡ in_steps step (at_most limit (number text.now)) }
{
    let value = number_up_to(limit, text)?;
    if value % step == 0 {
        Some(value / step)
    } else {
        None
    }
}

/// The two's complement bits of a negative number, in units of `step`, from its magnitude's text.
fn negative(step: u32, half: u32, text: &[u8]) -> Option<u32>
    requires step { 1 ≤ step × step ≤ 2 }
    requires half { half < 2 ^ 30 }
    ensures { result ≡ negated half (in_steps step (at_most (step * half) (number text.now))) }
{
    let magnitude = in_steps(step, step * half, text)?;
    if magnitude == 0 {
        Some(0)
    } else {
        Some(2 * half - magnitude)
    }
}

/// Reads a number, or `-` and a number, as two's complement bits in units of `step`. The number is
/// from `-half` to `half - 1` units.
fn signed_at(step: u32, half: u32, text: &[u8], at: usize) -> Result<(u32, usize), AsmFault>
    requires inside { at ≤ length text.now }
    requires step { 1 ≤ step × step ≤ 2 }
    requires half { 1 ≤ half × half < 2 ^ 30 }
    ensures { Reads text.now result
        (signed_number (length text.now + 1) step half (rest text.now at)) }
{
    let (token, after) = take(text, at)?;
    if token.text == b"-".as_slice() {
        let (digits, after) = take(text, after)?;
        return match negative(step, half, digits.text) {
            Some(value) => Ok((value, after)),
            None => Err(digits.fault()),
        };
    }
    match in_steps(step, step * half - 1, token.text) {
        Some(value) => Ok((value, after)),
        None => Err(token.fault()),
    }
}

/// Reads `, v0.t` or the end of the text as bit 25 (vm), which is 0 if the instruction is masked.
#[tactic(auto, using(crate::proofs::Tokens::takes_none))]
fn mask_at(text: &[u8], at: usize) -> Result<(u32, usize), AsmFault>
    requires { at ≤ length text.now }
    ensures { Reads text.now result (read_mask (length text.now + 1) (rest text.now at)) }
{
    let Some((token, after)) = next_token(text, at) else {
        return Ok((1, text.len()));
    };
    if token.text != b",".as_slice() {
        return Err(token.fault());
    }
    literal(b"v0.t", text, after)
}

/// The largest number of an unsigned field.
fn limit(field: UnsignedField) -> u32
    ensures { result ≡ limit field }
{
    match field {
        UnsignedField::Immediate | UnsignedField::ShiftWord => 31,
        UnsignedField::Shift => 63,
        UnsignedField::Upper => 1_048_575,
    }
}

/// The number of negative values of a signed field.
pub(crate) fn half(field: SignedField) -> u32
    ensures value { result ≡ half field }
    ensures range { 1 ≤ result × result < 2 ^ 30 }
{
    match field {
        SignedField::Vector => 16,
        SignedField::Immediate | SignedField::Store | SignedField::Branch => 2048,
        SignedField::Jump => 524_288,
    }
}

/// The unit of a signed field: 2 bytes for offsets of branches and jumps, else 1.
pub(crate) fn step(field: SignedField) -> u32
    ensures value { result ≡ scale field }
    ensures range { 1 ≤ result × result ≤ 2 }
{
    match field {
        SignedField::Branch | SignedField::Jump => 2,
        SignedField::Vector | SignedField::Immediate | SignedField::Store => 1,
    }
}

/// Reads a slot's tokens at or after index `at`; returns its value and the index after them.
pub(crate) fn read_slot(slot: &Slot, text: &[u8], at: usize) -> Result<(u32, usize), AsmFault>
    requires { at ≤ length text.now }
    ensures { Reads text.now result (read (length text.now + 1) slot.now (rest text.now at)) }
{
    match slot {
        Slot::Comma => literal(b",", text, at),
        Slot::Open => literal(b"(", text, at),
        Slot::Close => literal(b")", text, at),
        Slot::V0 => literal(b"v0", text, at),
        Slot::Scalar(_) => register_at(b'x', text, at),
        Slot::Vector(_) => register_at(b'v', text, at),
        Slot::Unsigned(field) => unsigned_at(limit(*field), text, at),
        Slot::Signed(field) => signed_at(step(*field), half(*field), text, at),
        Slot::Csr => csr_at(text, at),
        Slot::VectorType => vtype_at(2048, text, at),
        Slot::ShortVectorType => vtype_at(1024, text, at),
        Slot::Mask => mask_at(text, at),
        Slot::Word => unsigned_at(0xffff_ffff, text, at),
    }
}
