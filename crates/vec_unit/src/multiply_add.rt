//! Products that are added to a third operand, or subtracted from it ("V" Vector Extension 1.0, section 11.13).
ghost use Rattle.rv_model.specs.elements.Arithmetic.{multiply_add_result};
ghost use Rattle.rv_model.specs.lending.GroupBounds.{IsInside, SourceIsInside};
ghost use Rattle.vec_unit.specs.Results.{with_elements};

use crate::destination::{Destination, write_group};
use crate::operands::{WithSources, second_copy, signed_operand};
use crate::operation::Operation;
use lane_arith::{Body, Lane, MultiplyAdd};
use reg_groups::group_copy_mut;
use rv_model::instructions::operations::MultiplyAddOp;
use rv_model::{GROUP_BYTES, Scalar, VFile};

impl Operation for WithSources<MultiplyAddOp> {
    ghost written = { λ o vd agnostic g body file x.
        with_elements vd agnostic g body (multiply_add_result g o.op vd o.vs2 o.source file x) file };

    ghost inside = { λ o vd g end. IsInside vd g.emul × IsInside o.vs2 g.emul
        × SourceIsInside o.source g.emul };

    fn write<L: Lane>(&self, to: Destination, body: &Body<'_>, file: &mut VFile, scalar: &Scalar) {
        let (mut first, mut second) = ([0; GROUP_BYTES], [0; GROUP_BYTES]);
        let mut third = [0; GROUP_BYTES];
        let emul = to.emul;
        let a: &[u8] = group_copy_mut(file, self.vs2, emul, &mut first);
        let operand = signed_operand(self.source, emul);
        let b = second_copy::<L>(operand, body.end(), file, scalar, &mut second);
        let d: &[u8] = group_copy_mut(file, to.vd, emul, &mut third);
        let results = MultiplyAdd {
            op: self.op,
            a,
            b,
            d,
        };
        write_group::<L, MultiplyAdd<'_>>(&results, to, body, file);
    }
}
