//! Narrowing clips of a source of twice the width ("V" Vector Extension 1.0, section 12.5).
ghost use Rattle.rv_model.specs.elements.Arithmetic.{clip_result, clip_saturates_at};
ghost use Rattle.rv_model.specs.elements.Elements.{some_active};
ghost use Rattle.rv_model.specs.lending.GroupBounds.{IsInside, SourceIsInside};

use crate::operands::{SecondOperand, WithRounding, WithSources, second_in_place};
use crate::two_widths::{Groups, TwoWidths};
use lane_arith::{Body, Lane};
use lane_fixed::{Clip, write_saturating_results};
use reg_groups::group;
use rv_model::instructions::operations::ClipOp;
use rv_model::{GROUP_BYTES, Scalar, VFile};
use std::marker::PhantomData;

impl TwoWidths for WithSources<WithRounding<ClipOp>> {
    ghost number = { λ o narrow wide file x. clip_result narrow wide o.op.mode o.op.op o.vs2 o.source file x };

    ghost saturates = { λ o narrow wide file x body.
        some_active body (clip_saturates_at narrow wide o.op.mode o.op.op o.vs2 o.source file x) };

    ghost inside = { λ o narrow wide. IsInside o.vs2 wide × SourceIsInside o.source narrow };

    fn write<D: Lane, O: Lane>(
        &self,
        groups: Groups,
        body: &Body<'_>,
        file: &VFile,
        scalar: &Scalar,
        made: &mut [u8],
    ) -> bool {
        let mut copies = [0; GROUP_BYTES];
        let operand = SecondOperand {
            source: self.source,
            unsigned: true,
            emul: groups.emul,
        };
        let results = Clip::<'_, O> {
            op: self.op.op,
            mode: self.op.mode,
            a: group(file, self.vs2, groups.other),
            b: second_in_place::<D>(operand, body.end(), file, scalar, &mut copies),
            element: PhantomData,
        };
        write_saturating_results::<D, Clip<'_, O>>(&results, body, made, false)
    }
}
