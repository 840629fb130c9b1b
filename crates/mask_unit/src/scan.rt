//! Masks of the elements before, at or up to the first set bit of another mask ("V" Vector Extension 1.0, sections
//! 15.4 to 15.6).
ghost use Rattle.std.specs.Prelude.{◌≡◌, ◌<◌, ℕ};
ghost use Rattle.rv_model.specs.declared.vector.sizes.TheConstants.{GROUP_BYTES};
ghost use Rattle.rv_model.specs.elements.Elements.{in_range, mask_bit};
ghost use Rattle.rv_model.specs.elements.Masks.{mask_scan_formula};

use lane_arith::{Body, Lane, MaskResults, active_bytes, put_bits};
use rv_model::instructions::operations::MaskScanOp;
use rv_model::{GROUP_BYTES, VLENB};
use std::simd::prelude::*;

/// The results of `vmsbf.m`, `vmsif.m` or `vmsof.m`: the bits before the first set bit, those up to and including
/// it, or only that bit. `first` is its index, or `None` if no bit is set.
#[derive(Clone, Copy)]
pub struct MaskScan {
    pub op: MaskScanOp,
    pub first: Option<usize>,
}

/// One bit of the result. If no bit is set, each bit counts as before the first set bit.
fn apply(op: MaskScanOp, first: Option<usize>, index: usize) -> bool
    ensures { result ≡ mask_scan_formula op first index }
{
    match op {
        MaskScanOp::Vmsbf => first.is_none_or(|first| index < first),
        MaskScanOp::Vmsof => first == Some(index),
        MaskScanOp::Vmsif => first.is_none_or(|first| index <= first),
    }
}

/// A mask with 256 bits, set from `start` up to `end`, excluding `end`.
fn range(start: usize, end: usize) -> u8x32
    ensures { (i : ℕ) → i < GROUP_BYTES → mask_bit result i ≡ in_range start end i }
{
    let mask = [0; VLENB];
    active_bytes(&Body::new(true, &mask, start, end.min(GROUP_BYTES)))
}

/// All bits of the result.
fn results(op: MaskScanOp, first: Option<usize>) -> u8x32
    ensures { (i : ℕ) → i < GROUP_BYTES → mask_bit result i ≡ mask_scan_formula op first i }
{
    match first {
        None => match op {
            MaskScanOp::Vmsbf => range(0, GROUP_BYTES),
            MaskScanOp::Vmsof => range(0, 0),
            MaskScanOp::Vmsif => range(0, GROUP_BYTES),
        },
        Some(first) => match op {
            MaskScanOp::Vmsbf => range(0, first),
            MaskScanOp::Vmsof => range(first, first.saturating_add(1)),
            MaskScanOp::Vmsif => range(0, first.saturating_add(1)),
        },
    }
}

impl<L: Lane> MaskResults<L> for MaskScan {
    ghost bit = { λ r i. mask_scan_formula r.op r.first i };

    ghost has = { λ r i. i < GROUP_BYTES };

    fn bit(&self, index: usize) -> bool {
        apply(self.op, self.first, index)
    }

    fn write_register(&self, body: &Body<'_>, destination: &mut [u8]) -> bool {
        // For the proof alone: the body ends at or below `GROUP_BYTES`.
        let _end = body.end();
        put_bits(results(self.op, self.first), body, destination)
    }
}
