//! Moves of one operand to a group ("V" Vector Extension 1.0, section 11.16).
ghost use Rattle.rv_model.specs.elements.Arithmetic.{second_element};
ghost use Rattle.rv_model.specs.lending.GroupBounds.{IsInside, SourceIsInside};
ghost use Rattle.std.specs.Prelude.{false};
ghost use Rattle.vec_unit.specs.Results.{with_elements};

use crate::destination::{Destination, write_group};
use crate::operands::{second_copy, signed_operand};
use crate::operation::Operation;
use lane_arith::{Body, Copies, Lane};
use rv_model::{GROUP_BYTES, Scalar, Source, VFile};

/// A move from a vector register, a scalar register or an immediate.
#[derive(Clone, Copy)]
pub(crate) struct Move {
    pub source: Source,
}

impl Operation for Move {
    ghost written = { λ o vd agnostic g body file x.
        with_elements vd agnostic g body (second_element g false o.source file x) file };

    ghost inside = { λ o vd g end. IsInside vd g.emul × SourceIsInside o.source g.emul };

    #[inline(always)]
    fn write<L: Lane>(&self, to: Destination, body: &Body<'_>, file: &mut VFile, scalar: &Scalar) {
        let mut copy = [0; GROUP_BYTES];
        let emul = to.emul;
        let operand = signed_operand(self.source, emul);
        let b = second_copy::<L>(operand, body.end(), file, scalar, &mut copy);
        write_group::<L, Copies<'_>>(&Copies { b }, to, body, file);
    }
}
