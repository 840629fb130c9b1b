//! Operations on whole mask registers, as SIMD vectors of 32 bytes with a bit for each of 256 elements ("V" Vector
//! Extension 1.0, sections 15.1 and 15.2).
ghost use Rattle.std.specs.Prelude.{◌≡◌, ◌<◌, ◌&&◌, ℕ, length};
ghost use Rattle.std.specs.List.{filter, range_with_len};
ghost use Rattle.rv_model.specs.declared.vector.sizes.TheConstants.{GROUP_BYTES};
ghost use Rattle.rv_model.specs.elements.Elements.{mask_bit};
ghost use Rattle.rv_model.specs.elements.Masks.{mask_logic_formula};

use rv_model::instructions::operations::MaskLogicOp;
use std::simd::prelude::*;

/// The results of an operation on `a`, the bits of vs2, and `b`, the bits of vs1.
pub(crate) fn logic(op: MaskLogicOp, a: u8x32, b: u8x32) -> u8x32
    ensures { (i : ℕ) → i < GROUP_BYTES → mask_bit result i ≡ mask_logic_formula op (mask_bit a i) (mask_bit b i) }
{
    match op {
        MaskLogicOp::Vmandn => a & !b,
        MaskLogicOp::Vmand => a & b,
        MaskLogicOp::Vmor => a | b,
        MaskLogicOp::Vmxor => a ^ b,
        MaskLogicOp::Vmorn => a | !b,
        MaskLogicOp::Vmnand => !(a & b),
        MaskLogicOp::Vmnor => !(a | b),
        MaskLogicOp::Vmxnor => !(a ^ b),
    }
}

/// The number of bits, 0 to 256, that are set in both registers.
pub(crate) fn set_in_both(a: u8x32, b: u8x32) -> u16
    ensures { result ≡ length (filter (λ i. mask_bit a i && mask_bit b i) (range_with_len 0 GROUP_BYTES)) }
{
    (a & b).count_ones().cast::<u16>().reduce_sum()
}
