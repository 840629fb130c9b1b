//! Operations on two operands whose elements and results have the same width ("V" Vector Extension 1.0, chapter
//! 11). They run on copies of the operands or, faster, one register after another (`in_place`).
ghost use Rattle.rv_model.specs.elements.Arithmetic.{binary_result};
ghost use Rattle.rv_model.specs.elements.Formulas.{has_unsigned_immediate};
ghost use Rattle.rv_model.specs.lending.GroupBounds.{HoldsBody, IsInside, SourceIsInside};
ghost use Rattle.std.specs.Prelude.{◌≡◌};
ghost use Rattle.vec_unit.specs.InPlace.{with_binary_results};
ghost use Rattle.vec_unit.specs.Results.{with_elements};

use crate::destination::{Destination, write_group};
use crate::operands::{SecondOperand, WithSources, second_copy};
use crate::operation::Operation;
use lane_arith::{Binary, Body, Lane};
use reg_groups::{group_copy, registers};
use rv_model::instructions::operations::BinaryOp;
use rv_model::{GROUP_BYTES, Scalar, VFile};

/// Whether the immediate of an operation is unsigned: true of shifts.
pub(crate) fn has_unsigned_immediate(op: BinaryOp) -> bool
    ensures { result ≡ has_unsigned_immediate op }
{
    matches!(op, BinaryOp::Vsll | BinaryOp::Vsrl | BinaryOp::Vsra)
}

impl WithSources<BinaryOp> {
    /// Copy the operands, and write the results to a destination of any size.
    #[inline(never)]
    fn write_copied<L: Lane>(
        self,
        destination: Destination,
        body: &Body<'_>,
        file: &mut VFile,
        scalar: &Scalar,
    )
        requires operands { IsInside destination.vd destination.emul × IsInside self.vs2 destination.emul
            × SourceIsInside self.source destination.emul }
        requires holds { HoldsBody L.width destination.emul destination.count body.now.end }
        ensures { file.new ≡ with_binary_results L.width self destination body.now file.old scalar.now }
    {
        let (mut first, mut second) = ([0; GROUP_BYTES], [0; GROUP_BYTES]);
        let (source, emul, end) = (self.source, destination.emul, body.end());
        let unsigned = has_unsigned_immediate(self.op);
        let a = group_copy(file, self.vs2, emul, &mut first);
        let operand = SecondOperand {
            source,
            unsigned,
            emul,
        };
        let b = second_copy::<L>(operand, end, file, scalar, &mut second);
        let results = Binary { op: self.op, a, b };
        write_group::<L, Binary<'_>>(&results, destination, body, file);
    }
}

impl Operation for WithSources<BinaryOp> {
    ghost written = { λ o vd agnostic g body file x.
        with_elements vd agnostic g body (binary_result g o.op o.vs2 o.source file x) file };

    ghost inside = { λ o vd g end. IsInside vd g.emul × IsInside o.vs2 g.emul
        × SourceIsInside o.source g.emul };

    // The case of an unmasked body that starts with element 0 is inlined.
    #[inline(always)]
    fn write<L: Lane>(&self, to: Destination, body: &Body<'_>, file: &mut VFile, scalar: &Scalar) {
        let has_tail = to.fill_tail && body.end() != to.count;
        if !has_tail && self.is_in_turn(to.vd, registers(to.emul)) {
            self.write_all::<L>(to, body, file, scalar);
        } else {
            let to = Destination { ..to };
            (*self).write_copied::<L>(to, &body.copied(), file, scalar);
        }
    }
}
