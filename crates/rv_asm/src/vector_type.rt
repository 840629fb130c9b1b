//! Reads vtype from a text: the names of its fields, or a number.
ghost use Rattle.std.specs.Prelude.{◌≡◌, ◌≤◌, ◌<◌, ◌-◌, ◌+◌, length, IfOk};
ghost use Rattle.rv_model.specs.assembler.Numbers.{literal};
ghost use Rattle.rv_model.specs.assembler.Slots.{one, vtype_names, vtype};
ghost use Rattle.rv_asm.specs.Places.{rest, Reads};
ghost use Rattle.rv_asm.specs.TypeParts.{vlmul, vta, vma};

use crate::fault::AsmFault;
use crate::name::{vlmul, vma, vsew, vta};
use crate::number::number_up_to;
use crate::read::literal;
use crate::token::take;

/// Reads the name of a group multiplier (LMUL) as vlmul.
fn vlmul_at(text: &[u8], at: usize) -> Result<(u32, usize), AsmFault>
    requires { at ≤ length text.now }
    ensures read { Reads text.now result (one (length text.now + 1) vlmul (rest text.now at)) }
    ensures small { IfOk result (λ x. x.0 < 8) }
{
    let (token, after) = take(text, at)?;
    match vlmul(token.text) {
        Some(value) => Ok((value, after)),
        None => Err(token.fault()),
    }
}

/// Reads the name of a tail policy as vta.
fn vta_at(text: &[u8], at: usize) -> Result<(u32, usize), AsmFault>
    requires { at ≤ length text.now }
    ensures read { Reads text.now result (one (length text.now + 1) vta (rest text.now at)) }
    ensures small { IfOk result (λ x. x.0 < 2) }
{
    let (token, after) = take(text, at)?;
    match vta(token.text) {
        Some(value) => Ok((value, after)),
        None => Err(token.fault()),
    }
}

/// Reads the name of a policy for masked-off elements as vma.
fn vma_at(text: &[u8], at: usize) -> Result<(u32, usize), AsmFault>
    requires { at ≤ length text.now }
    ensures read { Reads text.now result (one (length text.now + 1) vma (rest text.now at)) }
    ensures small { IfOk result (λ x. x.0 < 2) }
{
    let (token, after) = take(text, at)?;
    match vma(token.text) {
        Some(value) => Ok((value, after)),
        None => Err(token.fault()),
    }
}

/// Reads the names of vtype's fields after the element width; returns vtype with all its fields.
#[tactic(auto, unfolding(rv_model::specs::assembler::Slots::vtype_names))]
fn names_behind(vsew: u32, text: &[u8], at: usize) -> Result<(u32, usize), AsmFault>
    requires inside { at ≤ length text.now }
    requires small { vsew < 4 }
    ensures { Reads text.now result (vtype_names (length text.now + 1) vsew (rest text.now at)) }
{
    let (_, at) = literal(b",", text, at)?;
    let (vlmul, at) = vlmul_at(text, at)?;
    let (_, at) = literal(b",", text, at)?;
    let (vta, at) = vta_at(text, at)?;
    let (_, at) = literal(b",", text, at)?;
    let (vma, at) = vma_at(text, at)?;
    Ok((vlmul + vsew * 8 + vta * 64 + vma * 128, at))
}

/// Reads vtype: the names of its fields if the first token is an element width, else a number below
/// `count`.
pub(crate) fn vtype_at(count: u32, text: &[u8], at: usize) -> Result<(u32, usize), AsmFault>
    requires inside { at ≤ length text.now }
    requires some { 1 ≤ count }
    ensures { Reads text.now result (vtype (length text.now + 1) count (rest text.now at)) }
{
    let (token, after) = take(text, at)?;
    if let Some(width) = vsew(token.text) {
        return names_behind(width, text, after);
    }
    match number_up_to(count - 1, token.text) {
        Some(value) => Ok((value, after)),
        None => Err(token.fault()),
    }
}
