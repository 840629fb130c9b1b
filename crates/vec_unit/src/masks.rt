//! Mask instructions ("V" Vector Extension 1.0, chapter 15).
ghost use Rattle.std.specs.Prelude.{◌≡◌, ◌%◌, ◌^◌, ◌<◌, ℕ, slice_index, true};
ghost use Rattle.rv_model.specs.elements.Arithmetic.{body_of, index_result, mask_logic_result, with_mask_results};
ghost use Rattle.rv_model.specs.elements.Masks.{first_set, mask_scan_formula, mask_to_scalar_formula, set_count};
ghost use Rattle.rv_model.specs.lending.GroupBounds.{IsInside};
ghost use Rattle.rv_model.specs.vector.Groups.{register_of};
ghost use mir.Val.{bits};
ghost use Rattle.vec_unit.specs.Results.{with_elements};

use crate::body::body_under;
use crate::destination::{Destination, write_group};
use crate::mask_operations::set_mask;
use crate::operation::Operation;
use lane_arith::{Body, Lane, write_mask_results};
use mask_unit::{Index, Iota, MaskLogic, MaskScan, count, counts_below, first};
use reg_groups::{mask_register, register_copy};
use rv_model::instructions::operations::{MaskLogicOp, MaskScanOp, MaskToScalarOp};
use rv_model::{GROUP_BYTES, Scalar, VFile, VReg, VState};

/// Execute a logical operation on two masks.
pub(crate) fn perform_logic(op: MaskLogicOp, vd: VReg, vs1: VReg, vs2: VReg, state: &mut VState)
    ensures { state.new ≡ record state.old {
      file =
          with_mask_results vd (body_of true state.old) (mask_logic_result op vs1 vs2 state.old.file) state.old.file;
    } }
{
    let mask = mask_register(&state.file);
    let body = body_under(true, &mask, state);
    let (a, b) = (
        register_copy(&state.file, vs2),
        register_copy(&state.file, vs1),
    );
    let results = MaskLogic { op, a: &a, b: &b };
    let mut bits = register_copy(&state.file, vd);
    write_mask_results::<u8, MaskLogic<'_>>(&results, &body, &mut bits);
    set_mask(&bits, vd, &mut state.file);
}

/// Execute `vmsbf.m`, `vmsif.m` or `vmsof.m`, by the first active bit of `vs2` that is set.
pub(crate) fn perform_scan(op: MaskScanOp, vd: VReg, vs2: VReg, unmasked: bool, state: &mut VState)
    ensures { state.new ≡ record state.old {
      file =
          with_mask_results vd (body_of unmasked state.old)
          (mask_scan_formula op (first_set (body_of unmasked state.old) (register_of state.old.file vs2)))
          state.old.file;
    } }
{
    let mask = mask_register(&state.file);
    let body = body_under(unmasked, &mask, state);
    let bits = register_copy(&state.file, vs2);
    let results = MaskScan {
        op,
        first: first(&body, &bits),
    };
    let mut written = register_copy(&state.file, vd);
    write_mask_results::<u8, MaskScan>(&results, &body, &mut written);
    set_mask(&written, vd, &mut state.file);
}

/// Return the result of `vcpop.m` or `vfirst.m`: the number of active bits of `vs2` that are set, or the index of
/// the first one, or -1 if there is none.
pub(crate) fn scalar_of_mask(op: MaskToScalarOp, vs2: VReg, unmasked: bool, state: &VState) -> u64
    ensures { result ≡ mask_to_scalar_formula op (body_of unmasked state.now) (register_of state.now.file vs2) }
{
    let mask = mask_register(&state.file);
    let body = body_under(unmasked, &mask, state);
    let bits = register_copy(&state.file, vs2);
    match op {
        MaskToScalarOp::Vcpop => count(&body, &bits) as u64,
        MaskToScalarOp::Vfirst => match first(&body, &bits) {
            Some(index) => index as u64,
            None => u64::MAX,
        },
    }
}

/// For each element below vl, count the active bits of `vs2` below it that are set.
pub(crate) fn count_mask(vs2: VReg, unmasked: bool, state: &VState, counts: &mut [u8; GROUP_BYTES])
    ensures { (i : ℕ) → i < state.now.conf.vl
        → slice_index counts.new i ≡ set_count (body_of unmasked state.now) (register_of state.now.file vs2) i }
{
    let mask = mask_register(&state.file);
    let body = body_under(unmasked, &mask, state);
    counts_below(&body, &register_copy(&state.file, vs2), counts);
}

/// `viota.m`, with the counts that `count_mask` returns.
#[derive(Clone, Copy)]
pub(crate) struct IotaOperation<'a> {
    pub counts: &'a [u8; GROUP_BYTES],
}

impl<'a> Operation for IotaOperation<'a> {
    ghost written = { λ o vd agnostic g body file x.
        with_elements vd agnostic g body (λ i. slice_index o.counts.now i % 2 ^ bits g.width) file };

    ghost inside = { λ o vd g end. IsInside vd g.emul };

    fn write<L: Lane>(&self, to: Destination, body: &Body<'_>, file: &mut VFile, scalar: &Scalar) {
        let results = Iota {
            counts: self.counts,
        };
        write_group::<L, Iota<'_>>(&results, to, body, file);
    }
}

/// `vid.v`: the indices of the elements.
#[derive(Clone, Copy)]
pub(crate) struct IndexOperation;

impl Operation for IndexOperation {
    ghost written = { λ o vd agnostic g body file x. with_elements vd agnostic g body (index_result g) file };

    ghost inside = { λ o vd g end. IsInside vd g.emul };

    fn write<L: Lane>(&self, to: Destination, body: &Body<'_>, file: &mut VFile, scalar: &Scalar) {
        write_group::<L, Index>(&Index, to, body, file);
    }
}
