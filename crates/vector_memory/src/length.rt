//! The number of indices of a vector load or store ("V" Vector Extension 1.0, sections 7.4 to 7.9).
ghost use Rattle.std.specs.Prelude.{◌≡◌, ◌≤◌, Some};
ghost use Rattle.rv_model.specs.accesses.VectorAccess.{VectorAccess, access_of, mask_length, whole_length};
ghost use Rattle.rv_model.specs.declared.scalar.Scalar.{Scalar};
ghost use Rattle.rv_model.specs.declared.vector.state.VState.{VState};
ghost use Rattle.rv_model.specs.vector.Groups.{element_width, sew_width, width_bytes};

use reg_groups::register_count;
use rv_model::instructions::operations::{Eew, RegisterCount};
use rv_model::{AccessInstr, VLENB};

/// Return the size in bytes of a memory element: 1, 2, 4 or 8.
#[inline(always)]
pub fn element_bytes(width: Eew) -> usize
    ensures value { result ≡ width_bytes (sew_width (element_width width)) }
    ensures some { 1 ≤ result }
    ensures most { result ≤ 8 }
{
    match width {
        Eew::E8 => 1,
        Eew::E16 => 2,
        Eew::E32 => 4,
        Eew::E64 => 8,
    }
}

/// Return the number of elements of a width in `count` whole registers, at most `GROUP_BYTES`.
pub fn whole_length(count: RegisterCount, width: Eew) -> usize
    ensures { result ≡ whole_length count width }
{
    usize::from(register_count(count)) * VLENB / element_bytes(width)
}

/// Return the number of bytes of a mask of `vl` bits.
pub(crate) fn mask_length(vl: usize) -> usize
    ensures { result ≡ mask_length vl }
{
    vl.div_ceil(8)
}

/// Return the number of indices of a load or store for a vector length.
#[inline(always)]
pub fn index_count(access: &AccessInstr, vl: usize) -> usize
    ensures { (v : VState) (x : Scalar) (a : VectorAccess) → access_of access.now v x ≡ Some a → v.conf.vl ≡ vl
        → result ≡ a.body.end }
{
    match *access {
        AccessInstr::UnitStride { .. }
        | AccessInstr::Strided { .. }
        | AccessInstr::Indexed { .. } => vl,
        AccessInstr::WholeLoad { count, width, .. } => whole_length(count, width),
        AccessInstr::WholeStore { count, .. } => usize::from(register_count(count)) * VLENB,
        AccessInstr::MaskAccess { .. } => mask_length(vl),
    }
}
