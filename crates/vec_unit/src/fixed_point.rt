//! Fixed-point operations whose operands and results have the same width ("V" Vector Extension 1.0, chapter 12).
ghost use Rattle.std.specs.Prelude.{◌≡◌};
ghost use Rattle.rv_model.specs.elements.Arithmetic.{fixed_point_result, saturates_at};
ghost use Rattle.rv_model.specs.elements.Elements.{some_active};
ghost use Rattle.rv_model.specs.elements.FixedPoint.{has_unsigned_shift};
ghost use Rattle.rv_model.specs.lending.GroupBounds.{IsInside, SourceIsInside};

use crate::operands::{SecondOperand, WithRounding, WithSources, second_in_place};
use crate::two_widths::{Groups, TwoWidths};
use lane_arith::{Body, Lane};
use lane_fixed::{FixedPoint, write_saturating_results};
use reg_groups::group;
use rv_model::instructions::operations::FixedPointOp;
use rv_model::{GROUP_BYTES, Scalar, VFile};

/// Whether the immediate of an operation is unsigned: true of shifts.
fn has_unsigned_shift(op: FixedPointOp) -> bool
    ensures { result ≡ has_unsigned_shift op }
{
    matches!(op, FixedPointOp::Vssrl | FixedPointOp::Vssra)
}

impl TwoWidths for WithSources<WithRounding<FixedPointOp>> {
    ghost number = { λ o g other file x. fixed_point_result g o.op.mode o.op.op o.vs2 o.source file x };

    ghost saturates = { λ o g other file x body.
        some_active body (saturates_at g o.op.mode o.op.op o.vs2 o.source file x) };

    ghost inside = { λ o emul other. IsInside o.vs2 emul × SourceIsInside o.source emul };

    fn write<D: Lane, O: Lane>(
        &self,
        groups: Groups,
        body: &Body<'_>,
        file: &VFile,
        scalar: &Scalar,
        made: &mut [u8],
    ) -> bool {
        let mut copies = [0; GROUP_BYTES];
        let operand = SecondOperand {
            source: self.source,
            unsigned: has_unsigned_shift(self.op.op),
            emul: groups.emul,
        };
        let results = FixedPoint {
            op: self.op.op,
            mode: self.op.mode,
            a: group(file, self.vs2, groups.emul),
            b: second_in_place::<D>(operand, body.end(), file, scalar, &mut copies),
        };
        write_saturating_results::<D, FixedPoint<'_>>(&results, body, made, false)
    }
}
