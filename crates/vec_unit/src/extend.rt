//! Integer extensions of elements of a half, a quarter or an eighth of the width ("V" Vector Extension 1.0, section
//! 11.3).
ghost use Rattle.std.specs.Prelude.{◌≡◌, ◌/◌, ◌≤◌, false};
ghost use Rattle.rv_model.specs.elements.Arithmetic.{extend_result};
ghost use Rattle.rv_model.specs.vector.Groups.{group_type, lmul_eighths, sew_bits, sew_width, vlmax};
ghost use Rattle.rv_model.specs.vector.Groups.{extension_divisor, part_type, part_width};
ghost use Rattle.rv_model.specs.lending.GroupBounds.{HasRoom, IsInside};
ghost use Rattle.vec_unit.specs.Results.{executed};

use crate::destination::Target;
use crate::two_widths::{Groups, TwoWidths, perform_at};
use lane_arith::{Body, Extend, Lane, write_results};
use reg_groups::{extension_divisor, group};
use rv_model::instructions::operations::ExtendOp;
use rv_model::{Scalar, Sew, VFile, VReg, VState};
use std::marker::PhantomData;

/// An extension and its source register.
#[derive(Clone, Copy)]
pub(crate) struct ExtendOperation {
    pub op: ExtendOp,
    pub vs2: VReg,
}

impl TwoWidths for ExtendOperation {
    ghost number = { λ o wide part file x. extend_result part wide o.op o.vs2 file };

    ghost saturates = { λ o wide part file x body. false };

    ghost inside = { λ o wide part. IsInside o.vs2 part };

    fn write<D: Lane, O: Lane>(
        &self,
        groups: Groups,
        body: &Body<'_>,
        file: &VFile,
        _scalar: &Scalar,
        made: &mut [u8],
    ) -> bool {
        let results = Extend::<'_, O> {
            op: self.op,
            a: group(file, self.vs2, groups.other),
            element: PhantomData,
        };
        write_results::<D, Extend<'_, O>>(&results, body, made, false);
        false
    }
}

/// Execute an extension to elements of SEW from elements of SEW divided by 2, 4 or 8.
fn perform_part(
    operation: ExtendOperation,
    sew: Sew,
    groups: Groups,
    target: Target,
    state: &mut VState,
    scalar: &Scalar,
)
    requires source { IsInside operation.vs2 groups.other }
    requires destination { IsInside target.vd groups.emul }
    requires wide { 8 ≤ sew_bits sew / extension_divisor operation.op }
    requires room { HasRoom (sew_width sew) groups.emul state.old.conf.vl }
    requires other_room { HasRoom (part_width operation.op (sew_width sew)) groups.other state.old.conf.vl }
    ensures { state.new ≡ executed (record { width = sew_width sew; emul = groups.emul }) target
        (extend_result (record { width = part_width operation.op (sew_width sew); emul = groups.other })
        (record { width = sew_width sew; emul = groups.emul }) operation.op operation.vs2 state.old.file) false state.old }
{
    let op = operation.op;
    let from = &operation;
    match op {
        ExtendOp::VzextVf2 | ExtendOp::VsextVf2 => match sew {
            Sew::E16 => perform_at::<u16, u8, ExtendOperation>(from, groups, target, state, scalar),
            Sew::E32 => perform_at::<u32, u16, ExtendOperation>(
                from, groups, target, state, scalar,
            ),
            Sew::E64 => perform_at::<u64, u32, ExtendOperation>(
                from, groups, target, state, scalar,
            ),
            Sew::E8 => unreachable!(),
        },
        ExtendOp::VzextVf4 | ExtendOp::VsextVf4 => match sew {
            Sew::E32 => perform_at::<u32, u8, ExtendOperation>(from, groups, target, state, scalar),
            Sew::E64 => perform_at::<u64, u16, ExtendOperation>(
                from, groups, target, state, scalar,
            ),
            Sew::E8 | Sew::E16 => unreachable!(),
        },
        ExtendOp::VzextVf8 | ExtendOp::VsextVf8 => match sew {
            Sew::E64 => perform_at::<u64, u8, ExtendOperation>(from, groups, target, state, scalar),
            Sew::E8 | Sew::E16 | Sew::E32 => unreachable!(),
        },
    }
}

impl ExtendOperation {
    /// Execute the extension to a group of the vector type.
    #[tactic(auto, using(crate::proofs::LegalGroups::extended_groups))]
    pub(crate) fn perform(&self, target: Target, state: &mut VState, scalar: &Scalar)
        requires source { IsInside self.now.vs2 (lmul_eighths target.vtype.lmul / extension_divisor self.now.op) }
        requires destination { IsInside target.vd (lmul_eighths target.vtype.lmul) }
        requires wide { 8 ≤ sew_bits target.vtype.sew / extension_divisor self.now.op }
        requires least { 1 ≤ lmul_eighths target.vtype.lmul / extension_divisor self.now.op }
        requires length { state.old.conf.vl ≤ vlmax target.vtype }
        ensures { state.new ≡ executed (group_type target.vtype) target
            (extend_result (part_type self.now.op target.vtype) (group_type target.vtype) self.now.op self.now.vs2
            state.old.file) false state.old }
    {
        let sew = target.vtype.sew;
        let emul = u32::from(target.vtype.lmul.eighths());
        let groups = Groups {
            emul,
            other: emul / u32::from(extension_divisor(self.op)),
        };
        perform_part(*self, sew, groups, target, state, scalar);
    }
}
