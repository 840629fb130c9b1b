//! The body of an instruction in a vector state ("V" Vector Extension 1.0, section 5.4).
ghost use Rattle.std.specs.Prelude.{◌≡◌};
ghost use Rattle.rv_model.specs.elements.Arithmetic.{body_of};
ghost use Rattle.rv_model.specs.vector.Groups.{register_of};

use lane_arith::Body;
use rv_model::{VLENB, VState};

/// The body of the elements from vstart up to vl, excluding vl; `mask` is v0.
pub(crate) fn body_under<'a>(unmasked: bool, mask: &'a [u8; VLENB], state: &VState) -> Body<'a>
    requires { mask.now ≡ register_of state.now.file 0 }
    ensures { result ≡ body_of unmasked state.now }
{
    let start = usize::from(state.vstart);
    Body::new(unmasked, mask, start, usize::from(state.conf.vl()))
}
