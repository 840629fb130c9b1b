//! Operations whose result has twice the width of an operand ("V" Vector Extension 1.0, sections 11.2, 11.12
//! and 11.14).
ghost use Rattle.std.specs.Prelude.{◌≡◌, ◌*◌, ◌<◌, false, get_or, length};
ghost use Rattle.rv_model.specs.elements.Arithmetic.{wide_source_result, widen_multiply_add_result, widen_result};
ghost use Rattle.rv_model.specs.lending.GroupBounds.{HasRoom, IsInside, SourceIsInside};
ghost use Rattle.rv_model.specs.lending.Writes.{Writes};
ghost use Rattle.rv_model.specs.elements.Elements.{is_active};
ghost use Rattle.rv_model.specs.vector.Groups.{width_bytes, registers};

use crate::operands::{WithSources, second_elements, second_in_place, signed_operand};
use crate::two_widths::{Groups, TwoWidths};
use lane_arith::{Body, Lane, WideSource, Widen, WidenMultiplyAdd, write_results};
use reg_groups::group;
use rv_model::instructions::operations::{WideSourceOp, WidenMultiplyAddOp, WidenOp};
use rv_model::{GROUP_BYTES, Scalar, VFile, VLENB, VReg};
use std::marker::PhantomData;

/// The operations; their indices are the const generics of `write_one`.
const OPERATIONS: [WidenOp; 7] = [
    WidenOp::Vwaddu,
    WidenOp::Vwadd,
    WidenOp::Vwsubu,
    WidenOp::Vwsub,
    WidenOp::Vwmulu,
    WidenOp::Vwmulsu,
    WidenOp::Vwmul,
];

/// Write the results of one operation on these sources. The loop of each instance tests neither the operation nor
/// whether it is masked.
fn write_one<D: Lane, O: Lane, const NUMBER: usize>(
    sources: &WithSources<WidenOp>,
    groups: Groups,
    body: &Body<'_>,
    file: &VFile,
    scalar: &Scalar,
    made: &mut [u8],
)
    requires known { NUMBER < 7 }
    requires operands { IsInside sources.now.vs2 groups.other × SourceIsInside sources.now.source groups.other }
    requires room { HasRoom D.width groups.emul body.now.end }
    requires other_room { HasRoom O.width groups.other body.now.end }
    requires whole { length made.old ≡ VLENB * registers groups.emul }
    ensures { Writes (width_bytes D.width) (is_active body.now)
        (widen_result (record { width = O.width; emul = groups.other }) (record { width = D.width; emul = groups.emul })
        (get_or OPERATIONS NUMBER WidenOp.Vwaddu) sources.now.vs2 sources.now.source file.now scalar.now)
        made.old made.new }
{
    let operand = signed_operand(sources.source, groups.other);
    let results = Widen::<'_, O> {
        op: OPERATIONS[NUMBER],
        a: group(file, sources.vs2, groups.other),
        b: second_elements(operand, file, scalar),
        element: PhantomData,
    };
    let body = body.copied();
    write_results::<D, Widen<'_, O>>(&results, &body, made, false);
}

impl TwoWidths for WithSources<WidenOp> {
    ghost number = { λ o wide narrow file x. widen_result narrow wide o.op o.vs2 o.source file x };

    ghost saturates = { λ o wide narrow file x body. false };

    ghost inside = { λ o wide narrow. IsInside o.vs2 narrow × SourceIsInside o.source narrow };

    fn write<D: Lane, O: Lane>(
        &self,
        groups: Groups,
        body: &Body<'_>,
        file: &VFile,
        scalar: &Scalar,
        made: &mut [u8],
    ) -> bool {
        match self.op {
            WidenOp::Vwaddu => write_one::<D, O, 0>(self, groups, body, file, scalar, made),
            WidenOp::Vwadd => write_one::<D, O, 1>(self, groups, body, file, scalar, made),
            WidenOp::Vwsubu => write_one::<D, O, 2>(self, groups, body, file, scalar, made),
            WidenOp::Vwsub => write_one::<D, O, 3>(self, groups, body, file, scalar, made),
            WidenOp::Vwmulu => write_one::<D, O, 4>(self, groups, body, file, scalar, made),
            WidenOp::Vwmulsu => write_one::<D, O, 5>(self, groups, body, file, scalar, made),
            WidenOp::Vwmul => write_one::<D, O, 6>(self, groups, body, file, scalar, made),
        }
        false
    }
}

impl TwoWidths for WithSources<WideSourceOp> {
    ghost number = { λ o wide narrow file x. wide_source_result narrow wide o.op o.vs2 o.source file x };

    ghost saturates = { λ o wide narrow file x body. false };

    ghost inside = { λ o wide narrow. IsInside o.vs2 wide × SourceIsInside o.source narrow };

    fn write<D: Lane, O: Lane>(
        &self,
        groups: Groups,
        body: &Body<'_>,
        file: &VFile,
        scalar: &Scalar,
        made: &mut [u8],
    ) -> bool {
        let mut copies = [0; GROUP_BYTES];
        let operand = signed_operand(self.source, groups.other);
        let results = WideSource::<'_, O> {
            op: self.op,
            a: group(file, self.vs2, groups.emul),
            b: second_in_place::<O>(operand, body.end(), file, scalar, &mut copies),
            element: PhantomData,
        };
        write_results::<D, WideSource<'_, O>>(&results, body, made, false);
        false
    }
}

/// An operation that adds products to the group at `vd`.
#[derive(Clone, Copy)]
pub(crate) struct WidenAccumulate {
    pub op: WidenMultiplyAddOp,
    pub vd: VReg,
}

impl TwoWidths for WithSources<WidenAccumulate> {
    ghost number = { λ o wide narrow file x.
        widen_multiply_add_result narrow wide o.op.op o.op.vd o.vs2 o.source file x };

    ghost saturates = { λ o wide narrow file x body. false };

    ghost inside = { λ o wide narrow. IsInside o.op.vd wide × IsInside o.vs2 narrow × SourceIsInside o.source narrow };

    fn write<D: Lane, O: Lane>(
        &self,
        groups: Groups,
        body: &Body<'_>,
        file: &VFile,
        scalar: &Scalar,
        made: &mut [u8],
    ) -> bool {
        let mut copies = [0; GROUP_BYTES];
        let operand = signed_operand(self.source, groups.other);
        let results = WidenMultiplyAdd::<'_, O> {
            op: self.op.op,
            a: group(file, self.vs2, groups.other),
            b: second_in_place::<O>(operand, body.end(), file, scalar, &mut copies),
            d: group(file, self.op.vd, groups.emul),
            element: PhantomData,
        };
        write_results::<D, WidenMultiplyAdd<'_, O>>(&results, body, made, false);
        false
    }
}
