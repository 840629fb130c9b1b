//! Numbers of control registers and of vtype's fields, from their names.
ghost use Rattle.std.specs.Prelude.{◌≡◌, ◌<◌, IfSome};
ghost use Rattle.rv_model.specs.assembler.Numbers.{csr};
ghost use Rattle.rv_asm.specs.TypeParts.{vsew, vlmul, vta, vma};

use crate::number::number_up_to;
use rv_model::{ControlRegister, Lmul, Sew, VType};

/// The number of a control register, from its name or from a number of at most 4095.
#[tactic(auto, unfolding(rv_model::specs::assembler::Numbers::csr))]
pub(crate) fn csr(text: &[u8]) -> Option<u32>
    ensures { result ≡ csr text.now }
{
    match ControlRegister::with_name(text) {
        Some(register) => Some(register.number()),
        None => number_up_to(4095, text),
    }
}

/// vsew, from the name of an element width.
pub(crate) fn vsew(text: &[u8]) -> Option<u32>
    ensures value { result ≡ vsew text.now }
    ensures small { IfSome result (λ v. v < 4) }
{
    let sew = Sew::with_name(text)?;
    Some(u32::from(sew.number()))
}

/// vlmul, from the name of a group multiplier.
pub(crate) fn vlmul(text: &[u8]) -> Option<u32>
    ensures value { result ≡ vlmul text.now }
    ensures small { IfSome result (λ v. v < 8) }
{
    let lmul = Lmul::with_name(text)?;
    Some(u32::from(lmul.number()))
}

/// vta, from the name of a policy for the tail.
pub(crate) fn vta(text: &[u8]) -> Option<u32>
    ensures value { result ≡ vta text.now }
    ensures small { IfSome result (λ v. v < 2) }
{
    let agnostic = VType::tail_with_name(text)?;
    Some(u32::from(agnostic))
}

/// vma, from the name of a policy for masked-off elements.
pub(crate) fn vma(text: &[u8]) -> Option<u32>
    ensures value { result ≡ vma text.now }
    ensures small { IfSome result (λ v. v < 2) }
{
    let agnostic = VType::mask_with_name(text)?;
    Some(u32::from(agnostic))
}
