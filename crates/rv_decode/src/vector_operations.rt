//! Decoding of vector operations by funct6 and form, or by their fixed bits.
ghost use Rattle.std.specs.Prelude.{◌≡◌, ◌<◌, ◌≤◌, IfSome, Some, None, true, if◌then◌else◌};
ghost use Rattle.rv_model.specs.lending.ListedBits.{whole_move_bits, mask_logic_bits, mask_to_scalar_bits, extend_bits};
ghost use Rattle.rv_model.specs.lending.ListedBits.{mask_unary_bits};
ghost use Rattle.rv_model.specs.instructions.Table.{counts};
ghost use Rattle.rv_model.specs.lending.Families.{mask_logic_ops, mask_to_scalar_ops, extend_ops, mask_unary_ops};
ghost use Rattle.rv_model.specs.lending.Families.{carry_ops};
ghost use Rattle.rv_model.specs.instructions.Operations.{has_form, line, carry_line, line_bits, vector_ops};
ghost use Rattle.rv_model.specs.lending.Search.{those, find, find_at};

use crate::lines::has_form;
use rv_model::instructions::operations::{
    BinaryOp, CarryOp, CarryOutOp, ClipOp, CompareOp, ExtendOp, FixedPointOp, Form, Forms, Major,
    MaskLogicOp, MaskScanOp, MaskToScalarOp, MaskUnaryOp, MultiplyAddOp, NarrowShiftOp, PermuteOp,
    ReduceOp, RegisterCount, VectorOp, WideSourceOp, WidenMultiplyAddOp, WidenOp, WidenReduceOp,
};

/// The operation, or `None` if it doesn't have this form; `forms` are its forms in the manual's funct6 table.
#[inline(always)]
fn if_allowed(op: VectorOp, forms: Forms, form: Form) -> Option<VectorOp>
    requires { forms ≡ (line op).forms }
    ensures row { result ≡ (if has_form (line op).forms form then Some op else None) }
    ensures allowed { IfSome result (λ op. has_form (line op).forms form ≡ true) }
{
    if has_form(forms, form) {
        Some(op)
    } else {
        None
    }
}

/// The operation of OPIVV, OPIVX or OPIVI with this form and this funct6, which is below 0x18.
#[tactic(auto, unfolding(rv_model::specs::lending::Search::find_at))]
#[inline(always)]
fn lower_opi(funct6: u32, form: Form) -> Option<VectorOp>
    requires { funct6 < 0x18 }
    ensures row { result ≡ find_at line Major.Opi form funct6 vector_ops }
    ensures allowed { IfSome result (λ op. has_form (line op).forms form ≡ true) }
{
    let (op, forms) = match funct6 {
        0x00 => (VectorOp::Binary(BinaryOp::Vadd), Forms::Vxi),
        0x02 => (VectorOp::Binary(BinaryOp::Vsub), Forms::Vx),
        0x03 => (VectorOp::Binary(BinaryOp::Vrsub), Forms::Xi),
        0x04 => (VectorOp::Binary(BinaryOp::Vminu), Forms::Vx),
        0x05 => (VectorOp::Binary(BinaryOp::Vmin), Forms::Vx),
        0x06 => (VectorOp::Binary(BinaryOp::Vmaxu), Forms::Vx),
        0x07 => (VectorOp::Binary(BinaryOp::Vmax), Forms::Vx),
        0x09 => (VectorOp::Binary(BinaryOp::Vand), Forms::Vxi),
        0x0a => (VectorOp::Binary(BinaryOp::Vor), Forms::Vxi),
        0x0b => (VectorOp::Binary(BinaryOp::Vxor), Forms::Vxi),
        0x0c => (VectorOp::Permute(PermuteOp::Vrgather), Forms::Vxi),
        0x0e => match form {
            Form::V => (VectorOp::Permute(PermuteOp::Vrgatherei16), Forms::V),
            Form::X | Form::I => (VectorOp::Permute(PermuteOp::Vslideup), Forms::Xi),
        },
        0x0f => (VectorOp::Permute(PermuteOp::Vslidedown), Forms::Xi),
        0x11 => (VectorOp::CarryOut(CarryOutOp::Vmadc), Forms::Vxi),
        0x13 => (VectorOp::CarryOut(CarryOutOp::Vmsbc), Forms::Vx),
        _ => return None,
    };
    if_allowed(op, forms, form)
}

/// The operation of OPIVV, OPIVX or OPIVI with this form and this funct6, which is at least 0x18.
#[tactic(auto, unfolding(rv_model::specs::lending::Search::find_at))]
#[inline(always)]
fn upper_opi(funct6: u32, form: Form) -> Option<VectorOp>
    requires { 0x18 ≤ funct6 }
    ensures row { result ≡ find_at line Major.Opi form funct6 vector_ops }
    ensures allowed { IfSome result (λ op. has_form (line op).forms form ≡ true) }
{
    let (op, forms) = match funct6 {
        0x18 => (VectorOp::Compare(CompareOp::Vmseq), Forms::Vxi),
        0x19 => (VectorOp::Compare(CompareOp::Vmsne), Forms::Vxi),
        0x1a => (VectorOp::Compare(CompareOp::Vmsltu), Forms::Vx),
        0x1b => (VectorOp::Compare(CompareOp::Vmslt), Forms::Vx),
        0x1c => (VectorOp::Compare(CompareOp::Vmsleu), Forms::Vxi),
        0x1d => (VectorOp::Compare(CompareOp::Vmsle), Forms::Vxi),
        0x1e => (VectorOp::Compare(CompareOp::Vmsgtu), Forms::Xi),
        0x1f => (VectorOp::Compare(CompareOp::Vmsgt), Forms::Xi),
        0x20 => (VectorOp::FixedPoint(FixedPointOp::Vsaddu), Forms::Vxi),
        0x21 => (VectorOp::FixedPoint(FixedPointOp::Vsadd), Forms::Vxi),
        0x22 => (VectorOp::FixedPoint(FixedPointOp::Vssubu), Forms::Vx),
        0x23 => (VectorOp::FixedPoint(FixedPointOp::Vssub), Forms::Vx),
        0x25 => (VectorOp::Binary(BinaryOp::Vsll), Forms::Vxi),
        0x27 => (VectorOp::FixedPoint(FixedPointOp::Vsmul), Forms::Vx),
        0x28 => (VectorOp::Binary(BinaryOp::Vsrl), Forms::Vxi),
        0x29 => (VectorOp::Binary(BinaryOp::Vsra), Forms::Vxi),
        0x2a => (VectorOp::FixedPoint(FixedPointOp::Vssrl), Forms::Vxi),
        0x2b => (VectorOp::FixedPoint(FixedPointOp::Vssra), Forms::Vxi),
        0x2c => (VectorOp::NarrowShift(NarrowShiftOp::Vnsrl), Forms::Vxi),
        0x2d => (VectorOp::NarrowShift(NarrowShiftOp::Vnsra), Forms::Vxi),
        0x2e => (VectorOp::Clip(ClipOp::Vnclipu), Forms::Vxi),
        0x2f => (VectorOp::Clip(ClipOp::Vnclip), Forms::Vxi),
        0x30 => (VectorOp::WidenReduce(WidenReduceOp::Vwredsumu), Forms::V),
        0x31 => (VectorOp::WidenReduce(WidenReduceOp::Vwredsum), Forms::V),
        _ => return None,
    };
    if_allowed(op, forms, form)
}

/// The operation of OPIVV, OPIVX or OPIVI with this funct6 and form.
#[inline(always)]
pub(crate) fn opi(funct6: u32, form: Form) -> Option<VectorOp>
    ensures row { result ≡ find_at line Major.Opi form funct6 vector_ops }
    ensures allowed { IfSome result (λ op. has_form (line op).forms form ≡ true) }
{
    if funct6 < 0x18 {
        lower_opi(funct6, form)
    } else {
        upper_opi(funct6, form)
    }
}

/// The operation of OPMVV or OPMVX with this form and this funct6, which is below 0x20.
#[tactic(auto, unfolding(rv_model::specs::lending::Search::find_at))]
#[inline(always)]
fn lower_opm(funct6: u32, form: Form) -> Option<VectorOp>
    requires { funct6 < 0x20 }
    ensures row { result ≡ find_at line Major.Opm form funct6 vector_ops }
    ensures allowed { IfSome result (λ op. has_form (line op).forms form ≡ true) }
{
    let (op, forms) = match funct6 {
        0x00 => (VectorOp::Reduce(ReduceOp::Vredsum), Forms::V),
        0x01 => (VectorOp::Reduce(ReduceOp::Vredand), Forms::V),
        0x02 => (VectorOp::Reduce(ReduceOp::Vredor), Forms::V),
        0x03 => (VectorOp::Reduce(ReduceOp::Vredxor), Forms::V),
        0x04 => (VectorOp::Reduce(ReduceOp::Vredminu), Forms::V),
        0x05 => (VectorOp::Reduce(ReduceOp::Vredmin), Forms::V),
        0x06 => (VectorOp::Reduce(ReduceOp::Vredmaxu), Forms::V),
        0x07 => (VectorOp::Reduce(ReduceOp::Vredmax), Forms::V),
        0x08 => (VectorOp::FixedPoint(FixedPointOp::Vaaddu), Forms::Vx),
        0x09 => (VectorOp::FixedPoint(FixedPointOp::Vaadd), Forms::Vx),
        0x0a => (VectorOp::FixedPoint(FixedPointOp::Vasubu), Forms::Vx),
        0x0b => (VectorOp::FixedPoint(FixedPointOp::Vasub), Forms::Vx),
        0x0e => (VectorOp::Permute(PermuteOp::Vslide1up), Forms::X),
        0x0f => (VectorOp::Permute(PermuteOp::Vslide1down), Forms::X),
        _ => return None,
    };
    if_allowed(op, forms, form)
}

/// The operation of OPMVV or OPMVX with this form and this funct6, which is 0x20 to 0x2f.
#[tactic(auto, unfolding(rv_model::specs::lending::Search::find_at))]
#[inline(always)]
fn middle_opm(funct6: u32, form: Form) -> Option<VectorOp>
    requires from { 0x20 ≤ funct6 }
    requires below { funct6 < 0x30 }
    ensures row { result ≡ find_at line Major.Opm form funct6 vector_ops }
    ensures allowed { IfSome result (λ op. has_form (line op).forms form ≡ true) }
{
    let (op, forms) = match funct6 {
        0x20 => (VectorOp::Binary(BinaryOp::Vdivu), Forms::Vx),
        0x21 => (VectorOp::Binary(BinaryOp::Vdiv), Forms::Vx),
        0x22 => (VectorOp::Binary(BinaryOp::Vremu), Forms::Vx),
        0x23 => (VectorOp::Binary(BinaryOp::Vrem), Forms::Vx),
        0x24 => (VectorOp::Binary(BinaryOp::Vmulhu), Forms::Vx),
        0x25 => (VectorOp::Binary(BinaryOp::Vmul), Forms::Vx),
        0x26 => (VectorOp::Binary(BinaryOp::Vmulhsu), Forms::Vx),
        0x27 => (VectorOp::Binary(BinaryOp::Vmulh), Forms::Vx),
        0x29 => (VectorOp::MultiplyAdd(MultiplyAddOp::Vmadd), Forms::Vx),
        0x2b => (VectorOp::MultiplyAdd(MultiplyAddOp::Vnmsub), Forms::Vx),
        0x2d => (VectorOp::MultiplyAdd(MultiplyAddOp::Vmacc), Forms::Vx),
        0x2f => (VectorOp::MultiplyAdd(MultiplyAddOp::Vnmsac), Forms::Vx),
        _ => return None,
    };
    if_allowed(op, forms, form)
}

/// The operation of OPMVV or OPMVX with this form and this funct6, which is at least 0x30.
#[tactic(auto, unfolding(rv_model::specs::lending::Search::find_at))]
#[inline(always)]
fn upper_opm(funct6: u32, form: Form) -> Option<VectorOp>
    requires { 0x30 ≤ funct6 }
    ensures row { result ≡ find_at line Major.Opm form funct6 vector_ops }
    ensures allowed { IfSome result (λ op. has_form (line op).forms form ≡ true) }
{
    let (op, forms) = match funct6 {
        0x30 => (VectorOp::Widen(WidenOp::Vwaddu), Forms::Vx),
        0x31 => (VectorOp::Widen(WidenOp::Vwadd), Forms::Vx),
        0x32 => (VectorOp::Widen(WidenOp::Vwsubu), Forms::Vx),
        0x33 => (VectorOp::Widen(WidenOp::Vwsub), Forms::Vx),
        0x34 => (VectorOp::WideSource(WideSourceOp::Vwaddu), Forms::Vx),
        0x35 => (VectorOp::WideSource(WideSourceOp::Vwadd), Forms::Vx),
        0x36 => (VectorOp::WideSource(WideSourceOp::Vwsubu), Forms::Vx),
        0x37 => (VectorOp::WideSource(WideSourceOp::Vwsub), Forms::Vx),
        0x38 => (VectorOp::Widen(WidenOp::Vwmulu), Forms::Vx),
        0x3a => (VectorOp::Widen(WidenOp::Vwmulsu), Forms::Vx),
        0x3b => (VectorOp::Widen(WidenOp::Vwmul), Forms::Vx),
        0x3c => (
            VectorOp::WidenMultiplyAdd(WidenMultiplyAddOp::Vwmaccu),
            Forms::Vx,
        ),
        0x3d => (
            VectorOp::WidenMultiplyAdd(WidenMultiplyAddOp::Vwmacc),
            Forms::Vx,
        ),
        0x3e => (
            VectorOp::WidenMultiplyAdd(WidenMultiplyAddOp::Vwmaccus),
            Forms::X,
        ),
        0x3f => (
            VectorOp::WidenMultiplyAdd(WidenMultiplyAddOp::Vwmaccsu),
            Forms::Vx,
        ),
        _ => return None,
    };
    if_allowed(op, forms, form)
}

/// The operation of OPMVV or OPMVX with this funct6 and form.
#[inline(always)]
pub(crate) fn opm(funct6: u32, form: Form) -> Option<VectorOp>
    ensures row { result ≡ find_at line Major.Opm form funct6 vector_ops }
    ensures allowed { IfSome result (λ op. has_form (line op).forms form ≡ true) }
{
    if funct6 < 0x20 {
        lower_opm(funct6, form)
    } else if funct6 < 0x30 {
        middle_opm(funct6, form)
    } else {
        upper_opm(funct6, form)
    }
}

/// The operation with v0 as an operand that has these fixed bits and this form.
#[tactic(auto, unfolding(rv_model::specs::lending::Search::find))]
pub(crate) fn carry_op(bits: u32, form: Form) -> Option<CarryOp>
    ensures row { result
        ≡ find
        (λ op. line_bits (carry_line op) form)
        (those carry_line Major.Opi form carry_ops)
        bits }
    ensures allowed { IfSome result (λ op. has_form (carry_line op).forms form ≡ true) }
{
    match form {
        Form::V => match bits {
            0x4000_0057 => Some(CarryOp::Vadc),
            0x4800_0057 => Some(CarryOp::Vsbc),
            0x5c00_0057 => Some(CarryOp::Vmerge),
            _ => None,
        },
        Form::X => match bits {
            0x4000_4057 => Some(CarryOp::Vadc),
            0x4800_4057 => Some(CarryOp::Vsbc),
            0x5c00_4057 => Some(CarryOp::Vmerge),
            _ => None,
        },
        Form::I => match bits {
            0x4000_3057 => Some(CarryOp::Vadc),
            0x5c00_3057 => Some(CarryOp::Vmerge),
            _ => None,
        },
    }
}

/// The number of registers of the `VectorInstr::WholeMove` with these fixed bits.
#[tactic(auto, unfolding(rv_model::specs::lending::Search::find))]
pub(crate) fn whole_move_op(bits: u32) -> Option<RegisterCount>
    ensures { result ≡ find whole_move_bits counts bits }
{
    match bits {
        0x9e00_3057 => Some(RegisterCount::One),
        0x9e00_b057 => Some(RegisterCount::Two),
        0x9e01_b057 => Some(RegisterCount::Four),
        0x9e03_b057 => Some(RegisterCount::Eight),
        _ => None,
    }
}

/// The operation of `VectorInstr::MaskLogic` with these fixed bits.
#[tactic(auto, unfolding(rv_model::specs::lending::Search::find))]
pub(crate) fn mask_logic_op(bits: u32) -> Option<MaskLogicOp>
    ensures { result ≡ find mask_logic_bits mask_logic_ops bits }
{
    match bits {
        0x6200_2057 => Some(MaskLogicOp::Vmandn),
        0x6600_2057 => Some(MaskLogicOp::Vmand),
        0x6a00_2057 => Some(MaskLogicOp::Vmor),
        0x6e00_2057 => Some(MaskLogicOp::Vmxor),
        0x7200_2057 => Some(MaskLogicOp::Vmorn),
        0x7600_2057 => Some(MaskLogicOp::Vmnand),
        0x7a00_2057 => Some(MaskLogicOp::Vmnor),
        0x7e00_2057 => Some(MaskLogicOp::Vmxnor),
        _ => None,
    }
}

/// The operation of `VectorInstr::MaskToScalar` with these fixed bits.
#[tactic(auto, unfolding(rv_model::specs::lending::Search::find))]
pub(crate) fn mask_to_scalar_op(bits: u32) -> Option<MaskToScalarOp>
    ensures { result ≡ find mask_to_scalar_bits mask_to_scalar_ops bits }
{
    match bits {
        0x4008_2057 => Some(MaskToScalarOp::Vcpop),
        0x4008_a057 => Some(MaskToScalarOp::Vfirst),
        _ => None,
    }
}

/// The operation of `VectorInstr::Extend` with these fixed bits.
#[tactic(auto, unfolding(rv_model::specs::lending::Search::find))]
pub(crate) fn extend_op(bits: u32) -> Option<ExtendOp>
    ensures { result ≡ find extend_bits extend_ops bits }
{
    match bits {
        0x4801_2057 => Some(ExtendOp::VzextVf8),
        0x4801_a057 => Some(ExtendOp::VsextVf8),
        0x4802_2057 => Some(ExtendOp::VzextVf4),
        0x4802_a057 => Some(ExtendOp::VsextVf4),
        0x4803_2057 => Some(ExtendOp::VzextVf2),
        0x4803_a057 => Some(ExtendOp::VsextVf2),
        _ => None,
    }
}

/// The operation of `VectorInstr::MaskUnary` with these fixed bits.
#[tactic(auto, unfolding(rv_model::specs::lending::Search::find))]
pub(crate) fn mask_unary_op(bits: u32) -> Option<MaskUnaryOp>
    ensures { result ≡ find mask_unary_bits mask_unary_ops bits }
{
    match bits {
        0x5000_a057 => Some(MaskUnaryOp::Scan(MaskScanOp::Vmsbf)),
        0x5001_2057 => Some(MaskUnaryOp::Scan(MaskScanOp::Vmsof)),
        0x5001_a057 => Some(MaskUnaryOp::Scan(MaskScanOp::Vmsif)),
        0x5008_2057 => Some(MaskUnaryOp::Viota),
        _ => None,
    }
}
