//! Comparisons, and operations that write carries or borrows to a mask ("V" Vector Extension 1.0, sections 11.4 and
//! 11.8).
ghost use Rattle.rv_model.specs.elements.Arithmetic.{carry_out_result, compare_result, with_mask_results};
ghost use Rattle.rv_model.specs.lending.GroupBounds.{IsInside, SourceIsInside};

use crate::destination::Destination;
use crate::mask_operations::set_mask;
use crate::operands::{WithSources, second_elements, second_in_place, signed_operand};
use crate::operation::Operation;
use lane_arith::{Body, CarryOut, Compare, Lane, write_mask_results};
use reg_groups::{group, register_copy};
use rv_model::instructions::operations::{CarryOutOp, CompareOp};
use rv_model::{GROUP_BYTES, Scalar, VFile};

impl Operation for WithSources<CompareOp> {
    ghost written = { λ o vd agnostic g body file x.
        with_mask_results vd body (compare_result g o.op o.vs2 o.source file x) file };

    ghost inside = { λ o vd g end. IsInside o.vs2 g.emul × SourceIsInside o.source g.emul };

    fn write<L: Lane>(&self, to: Destination, body: &Body<'_>, file: &mut VFile, scalar: &Scalar) {
        let emul = to.emul;
        let a = group(file, self.vs2, emul);
        let b = second_elements(signed_operand(self.source, emul), file, scalar);
        let results = Compare { op: self.op, a, b };
        let mut bits = register_copy(file, to.vd);
        write_mask_results::<L, Compare<'_>>(&results, body, &mut bits);
        set_mask(&bits, to.vd, file);
    }
}

/// An operation that writes carries or borrows. Unless `alone`, the bits of v0 are the incoming carries or borrows.
#[derive(Clone, Copy)]
pub(crate) struct CarryOutOperands {
    pub op: CarryOutOp,
    pub alone: bool,
}

impl Operation for WithSources<CarryOutOperands> {
    ghost written = { λ o vd agnostic g body file x.
        with_mask_results vd body (carry_out_result g o.op.op o.op.alone o.vs2 o.source file x) file };

    ghost inside = { λ o vd g end. IsInside o.vs2 g.emul × SourceIsInside o.source g.emul };

    fn write<L: Lane>(&self, to: Destination, body: &Body<'_>, file: &mut VFile, scalar: &Scalar) {
        let mut copies = [0; GROUP_BYTES];
        let emul = to.emul;
        let a = group(file, self.vs2, emul);
        let operand = signed_operand(self.source, emul);
        let b = second_in_place::<L>(operand, body.end(), file, scalar, &mut copies);
        let results = CarryOut {
            op: self.op.op,
            a,
            b,
            v0: body.mask(),
            alone: self.op.alone,
        };
        let mut bits = register_copy(file, to.vd);
        write_mask_results::<L, CarryOut<'_>>(&results, body, &mut bits);
        set_mask(&bits, to.vd, file);
    }
}
