//! Narrowing shifts of a source of twice the width ("V" Vector Extension 1.0, section 11.7).
ghost use Rattle.rv_model.specs.elements.Arithmetic.{narrow_shift_result};
ghost use Rattle.rv_model.specs.lending.GroupBounds.{IsInside, SourceIsInside};
ghost use Rattle.std.specs.Prelude.{false};

use crate::operands::{SecondOperand, WithSources, second_elements};
use crate::two_widths::{Groups, TwoWidths};
use lane_arith::{Body, Lane, NarrowShift, write_results};
use reg_groups::group;
use rv_model::instructions::operations::NarrowShiftOp;
use rv_model::{Scalar, VFile};
use std::marker::PhantomData;

impl TwoWidths for WithSources<NarrowShiftOp> {
    ghost number = { λ o narrow wide file x. narrow_shift_result narrow wide o.op o.vs2 o.source file x };

    ghost saturates = { λ o narrow wide file x body. false };

    ghost inside = { λ o narrow wide. IsInside o.vs2 wide × SourceIsInside o.source narrow };

    fn write<D: Lane, O: Lane>(
        &self,
        groups: Groups,
        body: &Body<'_>,
        file: &VFile,
        scalar: &Scalar,
        made: &mut [u8],
    ) -> bool {
        let operand = SecondOperand {
            source: self.source,
            unsigned: true,
            emul: groups.emul,
        };
        let results = NarrowShift::<'_, O> {
            op: self.op,
            a: group(file, self.vs2, groups.other),
            b: second_elements(operand, file, scalar),
            element: PhantomData,
        };
        write_results::<D, NarrowShift<'_, O>>(&results, body, made, false);
        false
    }
}
