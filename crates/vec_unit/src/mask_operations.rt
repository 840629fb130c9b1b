//! Results that are written to a mask register ("V" Vector Extension 1.0, sections 4.5, 5.3 and 11.8).
ghost use Rattle.std.specs.Prelude.{◌≡◌, Bool, ℕ};
ghost use Rattle.rv_model.specs.elements.Arithmetic.{with_mask_results};
ghost use Rattle.rv_model.specs.elements.Elements.{Body as BodyOf, is_active};
ghost use Rattle.rv_model.specs.lending.Writes.{WritesBits};
ghost use Rattle.rv_model.specs.vector.Groups.{register_of};

use reg_groups::group_mut;
use rv_model::{VFile, VLENB, VReg};

/// Write the bytes of a resulting mask to register `vd`.
#[inline(always)]
pub(crate) fn set_mask(mask: &[u8; VLENB], vd: VReg, file: &mut VFile)
    ensures { (body : BodyOf) (bit : ℕ → Bool)
        → WritesBits (is_active body) bit (register_of file.old vd) mask.now
        → file.new ≡ with_mask_results vd body bit file.old }
{
    group_mut(file, vd, 8).copy_from_slice(mask);
}
