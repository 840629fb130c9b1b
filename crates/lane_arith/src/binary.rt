//! Operations on two operands whose elements and results have the same width ("V" Vector Extension 1.0, chapter
//! 11).
ghost use Rattle.std.specs.Prelude.{◌≡◌, ℕ};
ghost use Rattle.rv_model.specs.elements.Elements.{element};
ghost use Rattle.rv_model.specs.lending.Writes.{HasElement};
ghost use Rattle.rv_model.specs.elements.Formulas.{formula, wrap};
ghost use Rattle.rv_model.specs.vector.Groups.{width_bytes};

use crate::chunk::binary;
use crate::lane::Lane;
use crate::operand::operand_chunk;
use crate::operation_loops::{
    HighProduct, MixedHighProduct, Quotient, Remainder, SignedHighProduct, SignedQuotient,
    SignedRemainder, write_all,
};
use crate::operations::apply;
use crate::results::Results;
use rv_model::instructions::operations::BinaryOp;

/// An operation on `a`, the elements of vs2, and `b`, the elements of the second operand.
#[derive(Clone, Copy)]
pub struct Binary<'a> {
    pub op: BinaryOp,
    pub a: &'a [u8],
    pub b: &'a [u8],
}

impl<'a, L: Lane> Results<L> for Binary<'a> {
    ghost number = { λ r i. wrap L.width (formula r.op L.width (element (width_bytes L.width) r.a.now i)
        (element (width_bytes L.width) r.b.now i)) };

    ghost has = { λ r i. HasElement (width_bytes L.width) r.a.now i × HasElement (width_bytes L.width) r.b.now i };

    fn result(&self, index: usize) -> L {
        apply(self.op, L::load(self.a, index), L::load(self.b, index))
    }

    fn chunk_results(&self, chunk: usize) -> Option<L::Vector> {
        let a = operand_chunk::<L>(self.a, chunk)?;
        let b = operand_chunk::<L>(self.b, chunk)?;
        binary::<L>(self.op, a, b)
    }

    fn write_range(&self, start: usize, end: usize, destination: &mut [u8]) -> bool {
        let (a, b) = (self.a, self.b);
        match self.op {
            BinaryOp::Vdivu => write_all::<L, Quotient>(a, b, start, end, destination),
            BinaryOp::Vdiv => write_all::<L, SignedQuotient>(a, b, start, end, destination),
            BinaryOp::Vremu => write_all::<L, Remainder>(a, b, start, end, destination),
            BinaryOp::Vrem => write_all::<L, SignedRemainder>(a, b, start, end, destination),
            BinaryOp::Vmulhu => write_all::<L, HighProduct>(a, b, start, end, destination),
            BinaryOp::Vmulhsu => write_all::<L, MixedHighProduct>(a, b, start, end, destination),
            BinaryOp::Vmulh => write_all::<L, SignedHighProduct>(a, b, start, end, destination),
            _ => return false,
        }
        true
    }
}
