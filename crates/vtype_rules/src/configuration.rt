//! The configuration after a request ("V" Vector Extension 1.0, sections 6.1 to 6.3).
ghost use Rattle.std.specs.Prelude.{◌≡◌, ◌≤◌, min};
ghost use Rattle.rv_model.specs.vector.Groups.{IsSupported};
ghost use Rattle.rv_model.specs.declared.vector.request.RequestedLength.TheVariants.{Keep};
ghost use Rattle.rv_model.specs.vector.TypeRules.{requested, with_length};

use crate::type_numbers::vector_type;
use rv_model::{RequestedLength, VConf, VType, VectorRequest};

/// Return the lesser of a requested length and the maximum length, in elements.
fn limited(count: u64, most: u16) -> u16
    ensures { result ≡ min count most }
{
    if count < u64::from(most) {
        count as u16
    } else {
        most
    }
}

/// Return the old length with a new type of the same VLMAX; `vill` if VLMAX differs or there is no old type.
fn kept(old: &VConf, vtype: VType) -> VConf
    requires { IsSupported vtype }
    ensures { result ≡ with_length old.now vtype Keep }
{
    match old.vtype() {
        Some(before) if before.vlmax() == vtype.vlmax() => VConf::new(old.vl(), vtype),
        _ => VConf::vill(),
    }
}

/// Return the length and type after a request. They are `vill` if the type isn't supported, or if the request
/// preserves the old length and VLMAX differs.
#[tactic(auto, unfolding(rv_model::specs::vector::TypeRules::requested))]
pub fn set(old: &VConf, request: VectorRequest) -> VConf
    ensures { result ≡ requested old.now request }
{
    let Some(vtype) = vector_type(request.vtype) else {
        return VConf::vill();
    };
    match request.length {
        RequestedLength::Elements(count) => VConf::new(limited(count, vtype.vlmax()), vtype),
        RequestedLength::Maximum => VConf::new(vtype.vlmax(), vtype),
        RequestedLength::Keep => kept(old, vtype),
    }
}
