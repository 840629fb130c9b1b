//! Operations with v0 as an operand ("V" Vector Extension 1.0, sections 11.4 and 11.15).
ghost use Rattle.std.specs.Prelude.{◌≡◌, ◌<◌, ℕ};
ghost use Rattle.rv_model.specs.declared.vector.sizes.TheConstants.{GROUP_BYTES};
ghost use Rattle.rv_model.specs.elements.Elements.{element, mask_bit};
ghost use Rattle.rv_model.specs.lending.Writes.{HasElement};
ghost use Rattle.rv_model.specs.elements.Formulas.{carry_formula, wrap};
ghost use Rattle.rv_model.specs.vector.Groups.{width_bytes};

use crate::chunk::with_mask_operand;
use crate::chunk_bits::mask_bits;
use crate::lane::Lane;
use crate::operand::operand_chunk;
use crate::results::Results;
use rv_model::instructions::operations::CarryOp;
use rv_model::{GROUP_BYTES, VLENB};

/// An operation on `a`, the elements of vs2, `b`, the elements of the second operand, and the bits of v0.
#[derive(Clone, Copy)]
pub struct WithMaskOperand<'a> {
    pub op: CarryOp,
    pub a: &'a [u8],
    pub b: &'a [u8],
    pub v0: &'a [u8; VLENB],
}

/// Return the bit of a mask at an index.
pub fn bit_of(mask: &[u8; VLENB], index: usize) -> bool
    requires { index < GROUP_BYTES }
    ensures { result ≡ mask_bit mask.now index }
{
    mask[index / 8] >> (index % 8) & 1 == 1
}

/// One element of the result; `c` is the bit of v0.
fn apply<L: Lane>(op: CarryOp, a: L, b: L, c: bool) -> L
    ensures { L.value result ≡ wrap L.width (carry_formula op (L.value a) (L.value b) c) }
{
    let (a, b) = (a.number(), b.number());
    L::low_bits(match op {
        CarryOp::Vadc => a.wrapping_add(b).wrapping_add(u64::from(c)),
        CarryOp::Vsbc => a.wrapping_sub(b).wrapping_sub(u64::from(c)),
        CarryOp::Vmerge => { if c { b } else { a } }
    })
}

impl<'a, L: Lane> Results<L> for WithMaskOperand<'a> {
    ghost number = { λ r i. wrap L.width (carry_formula r.op (element (width_bytes L.width) r.a.now i)
        (element (width_bytes L.width) r.b.now i) (mask_bit r.v0.now i)) };

    ghost has = { λ r i. (i < GROUP_BYTES) × HasElement (width_bytes L.width) r.a.now i
        × HasElement (width_bytes L.width) r.b.now i };

    fn result(&self, index: usize) -> L {
        apply(
            self.op,
            L::load(self.a, index),
            L::load(self.b, index),
            bit_of(self.v0, index),
        )
    }

    fn chunk_results(&self, chunk: usize) -> Option<L::Vector> {
        let a = operand_chunk::<L>(self.a, chunk)?;
        let b = operand_chunk::<L>(self.b, chunk)?;
        let count = L::count();
        let word = mask_bits(self.v0, count * chunk, count);
        Some(with_mask_operand::<L>(self.op, a, b, word))
    }
}
