//! Instructions whose operands have two widths, or whose results may saturate ("V" Vector Extension 1.0, sections
//! 3.9, 5.2, 11.2, 11.7, 11.12 and 11.14, and chapter 12).
ghost use Rattle.std.specs.Prelude.{◌≡◌, ◌*◌, ◌≤◌, Bool, List, length, ℕ};
ghost use Rattle.rv_model.specs.declared.scalar.Scalar.{Scalar as ScalarRegisters};
ghost use Rattle.rv_model.specs.vector.Groups.{GroupType, group_type, lmul_eighths, sew_bits, vlmax};
ghost use Rattle.rv_model.specs.vector.Groups.{registers, wide_type, width_bytes};
ghost use Rattle.rv_model.specs.lending.GroupBounds.{HasRoom, IsInside};
ghost use Rattle.rv_model.specs.elements.Elements.{Body as BodyOf, is_active};
ghost use Rattle.rv_model.specs.lending.Writes.{Writes};
ghost use Rattle.vec_unit.specs.Results.{performed};

use crate::body::body_under;
use crate::destination::{Target, agnostic_under, fill_agnostic};
use lane_arith::{Body, Lane};
use reg_groups::{group_copy_mut, mask_register, put_group};
use rv_model::{GROUP_BYTES, Scalar, Sew, VFile, VLENB, VState};

/// An operation and its operands, of two widths or of one.
pub(crate) trait TwoWidths {
    // The result for an element, as an unsigned number. Arguments: the types of the destination's groups and of the
    // other groups, and the contents of the vector and scalar registers.
    ghost number: { Self → GroupType → GroupType → List ℕ → ScalarRegisters → ℕ → ℕ };

    // Whether the result for an active element of a body saturates.
    ghost saturates: { Self → GroupType → GroupType → List ℕ → ScalarRegisters → BodyOf → Bool };

    // The groups of the operands are inside the register file. Arguments: the multipliers of the destination and of
    // the other groups, in eighths of a register.
    ghost inside: { Self → ℕ → ℕ → Type 0 };

    /// Write the results to a copy of the destination, with elements of the width of `D`; `O` is the other width.
    /// Return whether an active element saturates.
    fn write<D: Lane, O: Lane>(
        &self,
        groups: Groups,
        body: &Body<'_>,
        file: &VFile,
        scalar: &Scalar,
        made: &mut [u8],
    ) -> bool
        requires operands { inside self.now groups.emul groups.other }
        requires room { HasRoom D.width groups.emul body.now.end }
        requires other_room { HasRoom O.width groups.other body.now.end }
        requires whole { length made.old ≡ VLENB * registers groups.emul }
        ensures writes { Writes (width_bytes D.width) (is_active body.now)
            (number self.now (record { width = D.width; emul = groups.emul })
            (record { width = O.width; emul = groups.other }) file.now scalar.now) made.old made.new }
        ensures saturated { result ≡ saturates self.now (record { width = D.width; emul = groups.emul })
            (record { width = O.width; emul = groups.other }) file.now scalar.now body.now };
}

/// The multipliers of the destination's groups and of the groups of the other width, in eighths of a register.
#[derive(Clone, Copy)]
pub(crate) struct Groups {
    pub emul: u32,
    pub other: u32,
}

/// Execute an operation whose destination has elements of the width of `D`, and set vxsat if an active element
/// saturates; `O` is the other width.
pub(crate) fn perform_at<D: Lane, O: Lane, T: TwoWidths>(
    operation: &T,
    groups: Groups,
    target: Target,
    state: &mut VState,
    scalar: &Scalar,
)
    requires operands { T.inside operation.now groups.emul groups.other }
    requires destination { IsInside target.vd groups.emul }
    requires room { HasRoom D.width groups.emul state.old.conf.vl }
    requires other_room { HasRoom O.width groups.other state.old.conf.vl }
    ensures { state.new ≡ performed (T.number operation.now) (T.saturates operation.now)
        (record { width = D.width; emul = groups.emul }) (record { width = O.width; emul = groups.other })
        target scalar.now state.old }
{
    let mask = mask_register(&state.file);
    let body = body_under(target.unmasked, &mask, state);
    let agnostic = agnostic_under(target.policy, target.vtype, &body);
    let mut copy = [0; GROUP_BYTES];
    let made = group_copy_mut(&state.file, target.vd, groups.emul, &mut copy);
    fill_agnostic::<D>(agnostic, groups.emul, &body, made);
    let saturated = operation.write::<D, O>(groups, &body, &state.file, scalar, made);
    put_group(&mut state.file, target.vd, groups.emul, made);
    state.vxsat = state.vxsat || saturated;
}

/// Execute an operation whose destination has twice the vector type's width.
#[tactic(auto, using(crate::proofs::LegalGroups::wide_groups))]
pub(crate) fn perform_widening<T: TwoWidths>(
    operation: &T,
    target: Target,
    state: &mut VState,
    scalar: &Scalar,
)
    requires operands { T.inside operation.now (2 * lmul_eighths target.vtype.lmul) (lmul_eighths target.vtype.lmul) }
    requires destination { IsInside target.vd (2 * lmul_eighths target.vtype.lmul) }
    requires narrow { sew_bits target.vtype.sew ≤ 32 }
    requires most { 2 * lmul_eighths target.vtype.lmul ≤ 64 }
    requires length { state.old.conf.vl ≤ vlmax target.vtype }
    ensures { state.new ≡ performed (T.number operation.now) (T.saturates operation.now) (wide_type target.vtype)
        (group_type target.vtype) target scalar.now state.old }
{
    let other = u32::from(target.vtype.lmul.eighths());
    let emul = 2 * other;
    let groups = Groups { emul, other };
    match target.vtype.sew {
        Sew::E8 => perform_at::<u16, u8, T>(operation, groups, target, state, scalar),
        Sew::E16 => perform_at::<u32, u16, T>(operation, groups, target, state, scalar),
        Sew::E32 => perform_at::<u64, u32, T>(operation, groups, target, state, scalar),
        Sew::E64 => unreachable!(),
    }
}

/// Execute an operation with a source of twice the vector type's width.
#[tactic(auto, using(crate::proofs::LegalGroups::wide_groups))]
pub(crate) fn perform_narrowing<T: TwoWidths>(
    operation: &T,
    target: Target,
    state: &mut VState,
    scalar: &Scalar,
)
    requires operands { T.inside operation.now (lmul_eighths target.vtype.lmul) (2 * lmul_eighths target.vtype.lmul) }
    requires destination { IsInside target.vd (lmul_eighths target.vtype.lmul) }
    requires narrow { sew_bits target.vtype.sew ≤ 32 }
    requires most { 2 * lmul_eighths target.vtype.lmul ≤ 64 }
    requires length { state.old.conf.vl ≤ vlmax target.vtype }
    ensures { state.new ≡ performed (T.number operation.now) (T.saturates operation.now) (group_type target.vtype)
        (wide_type target.vtype) target scalar.now state.old }
{
    let emul = u32::from(target.vtype.lmul.eighths());
    let other = 2 * emul;
    let groups = Groups { emul, other };
    match target.vtype.sew {
        Sew::E8 => perform_at::<u8, u16, T>(operation, groups, target, state, scalar),
        Sew::E16 => perform_at::<u16, u32, T>(operation, groups, target, state, scalar),
        Sew::E32 => perform_at::<u32, u64, T>(operation, groups, target, state, scalar),
        Sew::E64 => unreachable!(),
    }
}

/// Execute an operation on groups of the vector type.
#[tactic(auto, using(crate::proofs::LegalGroups::wide_groups))]
pub(crate) fn perform_single<T: TwoWidths>(
    operation: &T,
    target: Target,
    state: &mut VState,
    scalar: &Scalar,
)
    requires operands { T.inside operation.now (lmul_eighths target.vtype.lmul) (lmul_eighths target.vtype.lmul) }
    requires destination { IsInside target.vd (lmul_eighths target.vtype.lmul) }
    requires length { state.old.conf.vl ≤ vlmax target.vtype }
    ensures { state.new ≡ performed (T.number operation.now) (T.saturates operation.now) (group_type target.vtype)
        (group_type target.vtype) target scalar.now state.old }
{
    let emul = u32::from(target.vtype.lmul.eighths());
    let groups = Groups { emul, other: emul };
    match target.vtype.sew {
        Sew::E8 => perform_at::<u8, u8, T>(operation, groups, target, state, scalar),
        Sew::E16 => perform_at::<u16, u16, T>(operation, groups, target, state, scalar),
        Sew::E32 => perform_at::<u32, u32, T>(operation, groups, target, state, scalar),
        Sew::E64 => perform_at::<u64, u64, T>(operation, groups, target, state, scalar),
    }
}
