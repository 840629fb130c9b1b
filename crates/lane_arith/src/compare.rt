//! Comparisons, and operations that write carries or borrows to a mask ("V" Vector Extension 1.0, sections 11.4 and
//! 11.8).
ghost use Rattle.std.specs.Prelude.{◌≡◌, ◌<◌, ◌&&◌, not, ℕ};
ghost use Rattle.rv_model.specs.declared.vector.sizes.TheConstants.{GROUP_BYTES};
ghost use Rattle.lane_arith.specs.SecondElements.{HasNumber, number_at};
ghost use Rattle.rv_model.specs.elements.Elements.{element, mask_bit};
ghost use Rattle.rv_model.specs.lending.Writes.{HasElement};
ghost use Rattle.rv_model.specs.elements.Formulas.{carry_out_formula, compare_formula};
ghost use Rattle.rv_model.specs.vector.Groups.{width_bytes};

use crate::chunk::compare;
use crate::lane::Lane;
use crate::mask_operand::bit_of;
use crate::mask_results::MaskResults;
use crate::operand::operand_chunk;
use crate::second_elements::SecondElements;
use rv_model::VLENB;
use rv_model::instructions::operations::{CarryOutOp, CompareOp};

/// A comparison of `a`, the elements of vs2, with `b`, the elements of the second operand.
#[derive(Clone, Copy)]
pub struct Compare<'a> {
    pub op: CompareOp,
    pub a: &'a [u8],
    pub b: SecondElements<'a>,
}

/// Whether the comparison of two elements is true.
fn holds<L: Lane>(op: CompareOp, a: L, b: L) -> bool
    ensures { result ≡ compare_formula op L.width (L.value a) (L.value b) }
{
    match op {
        CompareOp::Vmseq => a.number() == b.number(),
        CompareOp::Vmsne => a.number() != b.number(),
        CompareOp::Vmsltu => a.number() < b.number(),
        CompareOp::Vmslt => a.signed_number() < b.signed_number(),
        CompareOp::Vmsleu => a.number() <= b.number(),
        CompareOp::Vmsle => a.signed_number() <= b.signed_number(),
        CompareOp::Vmsgtu => b.number() < a.number(),
        CompareOp::Vmsgt => b.signed_number() < a.signed_number(),
    }
}

impl<'a, L: Lane> MaskResults<L> for Compare<'a> {
    ghost bit = { λ r i. compare_formula r.op L.width (element (width_bytes L.width) r.a.now i)
        (number_at L.width r.b i) };

    ghost has = { λ r i. HasElement (width_bytes L.width) r.a.now i × HasNumber L.width r.b i };

    fn bit(&self, index: usize) -> bool {
        holds(self.op, L::load(self.a, index), self.b.element::<L>(index))
    }

    fn chunk_bits(&self, chunk: usize) -> Option<u64> {
        let a = operand_chunk::<L>(self.a, chunk)?;
        let b = self.b.chunk::<L>(chunk)?;
        Some(compare::<L>(self.op, a, b))
    }
}

/// The carries of sums, or the borrows of differences, of `a`, the elements of vs2, and `b`, the elements of the
/// second operand. Unless `alone`, the bits of v0 are the incoming carries or borrows.
#[derive(Clone, Copy)]
pub struct CarryOut<'a> {
    pub op: CarryOutOp,
    pub a: &'a [u8],
    pub b: &'a [u8],
    pub v0: &'a [u8; VLENB],
    pub alone: bool,
}

/// Whether two elements produce a carry or borrow; `c` is the incoming carry or borrow.
fn carries<L: Lane>(op: CarryOutOp, a: L, b: L, c: bool) -> bool
    ensures { result ≡ carry_out_formula op L.width (L.value a) (L.value b) c }
{
    let (a, b) = (u128::from(a.number()), u128::from(b.number()));
    match op {
        CarryOutOp::Vmadc => 1 << L::bits() <= a + b + u128::from(c),
        CarryOutOp::Vmsbc => a < b + u128::from(c),
    }
}

impl<'a, L: Lane> MaskResults<L> for CarryOut<'a> {
    ghost bit = { λ r i. carry_out_formula r.op L.width (element (width_bytes L.width) r.a.now i)
        (element (width_bytes L.width) r.b.now i) (not r.alone && mask_bit r.v0.now i) };

    ghost has = { λ r i. (i < GROUP_BYTES) × HasElement (width_bytes L.width) r.a.now i
        × HasElement (width_bytes L.width) r.b.now i };

    fn bit(&self, index: usize) -> bool {
        carries(
            self.op,
            L::load(self.a, index),
            L::load(self.b, index),
            !self.alone && bit_of(self.v0, index),
        )
    }
}
