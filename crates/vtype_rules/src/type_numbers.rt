//! Numbers of vector types, as `vtype` encodes them ("V" Vector Extension 1.0, section 3.4).
ghost use Rattle.std.specs.Prelude.{◌≡◌, ◌<◌, ◌^◌, IfSome, Some};
ghost use Rattle.rv_model.specs.instructions.FixedBits.{field};
ghost use Rattle.rv_model.specs.vector.Groups.{IsSupported};
ghost use Rattle.rv_model.specs.vector.TypeRules.{vector_type, vtype_number};

use rv_model::{Lmul, Sew, VType};

/// The bit `vill`, which is set if there is no vector type.
const VILL: u64 = 1 << 63;

/// Return the number of a vector type; only the bit `vill` is set if there is no type.
pub fn vtype_number(vtype: Option<VType>) -> u64
    ensures value { result ≡ vtype_number vtype }
    ensures read_back { IfSome vtype (λ t. IsSupported t → vector_type result ≡ Some t) }
{
    let Some(vtype) = vtype else {
        return VILL;
    };
    u64::from(vtype.lmul.number())
        + u64::from(vtype.sew.number()) * (1 << 3)
        + u64::from(vtype.tail_agnostic) * (1 << 6)
        + u64::from(vtype.mask_agnostic) * (1 << 7)
}

/// Return the `len` bits from bit `low` up.
fn field(low: u32, len: u32, number: u64) -> u64
    requires low { low < 64 }
    requires len { len < 64 }
    ensures { result ≡ field low len number }
{
    (number >> low) % (1 << len)
}

/// Return the vector type with this number; `None` if the type isn't supported, or if a bit from 8 up is set.
pub fn vector_type(number: u64) -> Option<VType>
    ensures value { result ≡ vector_type number }
    ensures supported { IfSome result (λ t. IsSupported t) }
    ensures number { IfSome result (λ t. vtype_number (Some t) ≡ number) }
{
    if number >= 1 << 8 {
        return None;
    }
    let sew = Sew::with_number(field(3, 3, number) as u8)?;
    let lmul = Lmul::with_number(field(0, 3, number) as u8)?;
    let vtype = VType {
        sew,
        lmul,
        tail_agnostic: field(6, 1, number) == 1,
        mask_agnostic: field(7, 1, number) == 1,
    };
    if vtype.is_supported() {
        Some(vtype)
    } else {
        None
    }
}
