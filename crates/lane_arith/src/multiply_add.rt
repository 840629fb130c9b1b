//! Products that are added to a third operand, or subtracted from it ("V" Vector Extension 1.0, section 11.13).
ghost use Rattle.std.specs.Prelude.{◌≡◌, ℕ};
ghost use Rattle.rv_model.specs.elements.Elements.{element};
ghost use Rattle.rv_model.specs.lending.Writes.{HasElement};
ghost use Rattle.rv_model.specs.elements.Formulas.{multiply_add_formula, wrap};
ghost use Rattle.rv_model.specs.vector.Groups.{width_bytes};

use crate::chunk::multiply_add;
use crate::lane::Lane;
use crate::operand::operand_chunk;
use crate::results::Results;
use rv_model::instructions::operations::MultiplyAddOp;

/// An operation on `a`, the elements of vs2, `b`, the elements of the second operand, and `d`, the old elements of
/// vd.
#[derive(Clone, Copy)]
pub struct MultiplyAdd<'a> {
    pub op: MultiplyAddOp,
    pub a: &'a [u8],
    pub b: &'a [u8],
    pub d: &'a [u8],
}

/// One element of the result.
fn apply<L: Lane>(op: MultiplyAddOp, a: L, b: L, d: L) -> L
    ensures { L.value result ≡ wrap L.width (multiply_add_formula op (L.value a) (L.value b) (L.value d)) }
{
    let (a, b, d) = (a.number(), b.number(), d.number());
    L::low_bits(match op {
        MultiplyAddOp::Vmadd => b.wrapping_mul(d).wrapping_add(a),
        MultiplyAddOp::Vnmsub => a.wrapping_sub(b.wrapping_mul(d)),
        MultiplyAddOp::Vmacc => a.wrapping_mul(b).wrapping_add(d),
        MultiplyAddOp::Vnmsac => d.wrapping_sub(a.wrapping_mul(b)),
    })
}

impl<'a, L: Lane> Results<L> for MultiplyAdd<'a> {
    ghost number = { λ r i. wrap L.width (multiply_add_formula r.op (element (width_bytes L.width) r.a.now i)
        (element (width_bytes L.width) r.b.now i) (element (width_bytes L.width) r.d.now i)) };

    ghost has = { λ r i. HasElement (width_bytes L.width) r.a.now i × HasElement (width_bytes L.width) r.b.now i
        × HasElement (width_bytes L.width) r.d.now i };

    fn result(&self, index: usize) -> L {
        apply(
            self.op,
            L::load(self.a, index),
            L::load(self.b, index),
            L::load(self.d, index),
        )
    }

    fn chunk_results(&self, chunk: usize) -> Option<L::Vector> {
        let a = operand_chunk::<L>(self.a, chunk)?;
        let b = operand_chunk::<L>(self.b, chunk)?;
        let d = operand_chunk::<L>(self.d, chunk)?;
        Some(multiply_add::<L>(self.op, a, b, d))
    }
}
