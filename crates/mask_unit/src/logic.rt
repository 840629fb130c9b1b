//! Logical operations on two masks ("V" Vector Extension 1.0, section 15.1).
ghost use Rattle.std.specs.Prelude.{◌≡◌, ◌<◌, ℕ};
ghost use Rattle.rv_model.specs.declared.vector.sizes.TheConstants.{GROUP_BYTES};
ghost use Rattle.rv_model.specs.elements.Elements.{mask_bit};
ghost use Rattle.rv_model.specs.elements.Masks.{mask_logic_formula};

use crate::chunk::logic;
use lane_arith::{Body, Lane, MaskResults, bit_of, put_bits};
use rv_model::VLENB;
use rv_model::instructions::operations::MaskLogicOp;
use std::simd::prelude::*;

/// An operation on `a`, the bits of vs2, and `b`, the bits of vs1.
#[derive(Clone, Copy)]
pub struct MaskLogic<'a> {
    pub op: MaskLogicOp,
    pub a: &'a [u8; VLENB],
    pub b: &'a [u8; VLENB],
}

/// One bit of the result.
fn apply(op: MaskLogicOp, a: bool, b: bool) -> bool
    ensures { result ≡ mask_logic_formula op a b }
{
    match op {
        MaskLogicOp::Vmandn => a && !b,
        MaskLogicOp::Vmand => a && b,
        MaskLogicOp::Vmor => a || b,
        MaskLogicOp::Vmxor => a != b,
        MaskLogicOp::Vmorn => a || !b,
        MaskLogicOp::Vmnand => !(a && b),
        MaskLogicOp::Vmnor => !(a || b),
        MaskLogicOp::Vmxnor => a == b,
    }
}

impl<'a, L: Lane> MaskResults<L> for MaskLogic<'a> {
    ghost bit = { λ r i. mask_logic_formula r.op (mask_bit r.a.now i) (mask_bit r.b.now i) };

    ghost has = { λ r i. i < GROUP_BYTES };

    fn bit(&self, index: usize) -> bool {
        apply(self.op, bit_of(self.a, index), bit_of(self.b, index))
    }

    fn write_register(&self, body: &Body<'_>, destination: &mut [u8]) -> bool {
        // For the proof alone: the body ends at or below `GROUP_BYTES`.
        let _end = body.end();
        let a = u8x32::from_array(*self.a);
        let b = u8x32::from_array(*self.b);
        put_bits(logic(self.op, a, b), body, destination)
    }
}
