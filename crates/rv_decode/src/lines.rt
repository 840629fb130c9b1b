//! Entries of the manual's funct6 table of vector operations ("V" Vector Extension 1.0, chapter 19).
ghost use Rattle.std.specs.Prelude.{◌≡◌, ◌<◌};
ghost use Rattle.rv_model.specs.instructions.Operations.{carry_line, line, has_form};
ghost use Rattle.rv_model.specs.lending.ListedBits.{line_at, binary_line, carry_out_line, compare_line};
ghost use Rattle.rv_model.specs.lending.ListedBits.{fixed_point_line, narrow_shift_line, clip_line, widen_line};
ghost use Rattle.rv_model.specs.lending.ListedBits.{wide_source_line, multiply_add_line, widen_multiply_add_line};
ghost use Rattle.rv_model.specs.lending.ListedBits.{reduce_line, widen_reduce_line, permute_line};

use rv_model::instructions::operations::{
    BinaryOp, CarryOp, CarryOutOp, ClipOp, CompareOp, FixedPointOp, Form, Forms, Line, Major,
    MultiplyAddOp, NarrowShiftOp, PermuteOp, ReduceOp, VectorOp, WideSourceOp, WidenMultiplyAddOp,
    WidenOp, WidenReduceOp,
};

/// An entry of OPIVV, OPIVX and OPIVI.
fn opi(funct6: u32, forms: Forms) -> Line
    ensures { result ≡ line_at Major.Opi funct6 forms }
{
    Line {
        major: Major::Opi,
        funct6,
        forms,
    }
}

/// An entry of OPMVV and OPMVX.
fn opm(funct6: u32, forms: Forms) -> Line
    ensures { result ≡ line_at Major.Opm funct6 forms }
{
    Line {
        major: Major::Opm,
        funct6,
        forms,
    }
}

/// Whether `forms` includes a form.
#[inline(always)]
pub(crate) fn has_form(forms: Forms, form: Form) -> bool
    ensures { result ≡ has_form forms form }
{
    match (forms, form) {
        (Forms::Vxi, _) | (Forms::V, Form::V) | (Forms::X, Form::X) => true,
        (Forms::Vx, Form::V) | (Forms::Vx, Form::X) => true,
        (Forms::Xi, Form::X) | (Forms::Xi, Form::I) => true,
        _ => false,
    }
}

/// Integer operations whose operands all have width SEW.
fn binary_line(op: BinaryOp) -> Line
    ensures { result ≡ binary_line op }
{
    match op {
        BinaryOp::Vadd => opi(0x00, Forms::Vxi),
        BinaryOp::Vsub => opi(0x02, Forms::Vx),
        BinaryOp::Vrsub => opi(0x03, Forms::Xi),
        BinaryOp::Vminu => opi(0x04, Forms::Vx),
        BinaryOp::Vmin => opi(0x05, Forms::Vx),
        BinaryOp::Vmaxu => opi(0x06, Forms::Vx),
        BinaryOp::Vmax => opi(0x07, Forms::Vx),
        BinaryOp::Vand => opi(0x09, Forms::Vxi),
        BinaryOp::Vor => opi(0x0a, Forms::Vxi),
        BinaryOp::Vxor => opi(0x0b, Forms::Vxi),
        BinaryOp::Vsll => opi(0x25, Forms::Vxi),
        BinaryOp::Vsrl => opi(0x28, Forms::Vxi),
        BinaryOp::Vsra => opi(0x29, Forms::Vxi),
        BinaryOp::Vdivu => opm(0x20, Forms::Vx),
        BinaryOp::Vdiv => opm(0x21, Forms::Vx),
        BinaryOp::Vremu => opm(0x22, Forms::Vx),
        BinaryOp::Vrem => opm(0x23, Forms::Vx),
        BinaryOp::Vmulhu => opm(0x24, Forms::Vx),
        BinaryOp::Vmul => opm(0x25, Forms::Vx),
        BinaryOp::Vmulhsu => opm(0x26, Forms::Vx),
        BinaryOp::Vmulh => opm(0x27, Forms::Vx),
    }
}

/// Operations that write carries or borrows to a mask.
fn carry_out_line(op: CarryOutOp) -> Line
    ensures { result ≡ carry_out_line op }
{
    match op {
        CarryOutOp::Vmadc => opi(0x11, Forms::Vxi),
        CarryOutOp::Vmsbc => opi(0x13, Forms::Vx),
    }
}

/// Comparisons.
fn compare_line(op: CompareOp) -> Line
    ensures { result ≡ compare_line op }
{
    match op {
        CompareOp::Vmseq => opi(0x18, Forms::Vxi),
        CompareOp::Vmsne => opi(0x19, Forms::Vxi),
        CompareOp::Vmsltu => opi(0x1a, Forms::Vx),
        CompareOp::Vmslt => opi(0x1b, Forms::Vx),
        CompareOp::Vmsleu => opi(0x1c, Forms::Vxi),
        CompareOp::Vmsle => opi(0x1d, Forms::Vxi),
        CompareOp::Vmsgtu => opi(0x1e, Forms::Xi),
        CompareOp::Vmsgt => opi(0x1f, Forms::Xi),
    }
}

/// Fixed-point operations whose operands all have width SEW.
fn fixed_point_line(op: FixedPointOp) -> Line
    ensures { result ≡ fixed_point_line op }
{
    match op {
        FixedPointOp::Vsaddu => opi(0x20, Forms::Vxi),
        FixedPointOp::Vsadd => opi(0x21, Forms::Vxi),
        FixedPointOp::Vssubu => opi(0x22, Forms::Vx),
        FixedPointOp::Vssub => opi(0x23, Forms::Vx),
        FixedPointOp::Vsmul => opi(0x27, Forms::Vx),
        FixedPointOp::Vssrl => opi(0x2a, Forms::Vxi),
        FixedPointOp::Vssra => opi(0x2b, Forms::Vxi),
        FixedPointOp::Vaaddu => opm(0x08, Forms::Vx),
        FixedPointOp::Vaadd => opm(0x09, Forms::Vx),
        FixedPointOp::Vasubu => opm(0x0a, Forms::Vx),
        FixedPointOp::Vasub => opm(0x0b, Forms::Vx),
    }
}

/// Narrowing shifts.
fn narrow_shift_line(op: NarrowShiftOp) -> Line
    ensures { result ≡ narrow_shift_line op }
{
    match op {
        NarrowShiftOp::Vnsrl => opi(0x2c, Forms::Vxi),
        NarrowShiftOp::Vnsra => opi(0x2d, Forms::Vxi),
    }
}

/// Clips.
fn clip_line(op: ClipOp) -> Line
    ensures { result ≡ clip_line op }
{
    match op {
        ClipOp::Vnclipu => opi(0x2e, Forms::Vxi),
        ClipOp::Vnclip => opi(0x2f, Forms::Vxi),
    }
}

/// Operations whose result has twice the width.
fn widen_line(op: WidenOp) -> Line
    ensures { result ≡ widen_line op }
{
    match op {
        WidenOp::Vwaddu => opm(0x30, Forms::Vx),
        WidenOp::Vwadd => opm(0x31, Forms::Vx),
        WidenOp::Vwsubu => opm(0x32, Forms::Vx),
        WidenOp::Vwsub => opm(0x33, Forms::Vx),
        WidenOp::Vwmulu => opm(0x38, Forms::Vx),
        WidenOp::Vwmulsu => opm(0x3a, Forms::Vx),
        WidenOp::Vwmul => opm(0x3b, Forms::Vx),
    }
}

/// Operations whose result and first source have twice the width.
fn wide_source_line(op: WideSourceOp) -> Line
    ensures { result ≡ wide_source_line op }
{
    match op {
        WideSourceOp::Vwaddu => opm(0x34, Forms::Vx),
        WideSourceOp::Vwadd => opm(0x35, Forms::Vx),
        WideSourceOp::Vwsubu => opm(0x36, Forms::Vx),
        WideSourceOp::Vwsub => opm(0x37, Forms::Vx),
    }
}

/// Multiply-adds.
fn multiply_add_line(op: MultiplyAddOp) -> Line
    ensures { result ≡ multiply_add_line op }
{
    match op {
        MultiplyAddOp::Vmadd => opm(0x29, Forms::Vx),
        MultiplyAddOp::Vnmsub => opm(0x2b, Forms::Vx),
        MultiplyAddOp::Vmacc => opm(0x2d, Forms::Vx),
        MultiplyAddOp::Vnmsac => opm(0x2f, Forms::Vx),
    }
}

/// Multiply-adds whose result has twice the width.
fn widen_multiply_add_line(op: WidenMultiplyAddOp) -> Line
    ensures { result ≡ widen_multiply_add_line op }
{
    match op {
        WidenMultiplyAddOp::Vwmaccu => opm(0x3c, Forms::Vx),
        WidenMultiplyAddOp::Vwmacc => opm(0x3d, Forms::Vx),
        WidenMultiplyAddOp::Vwmaccus => opm(0x3e, Forms::X),
        WidenMultiplyAddOp::Vwmaccsu => opm(0x3f, Forms::Vx),
    }
}

/// Reductions.
fn reduce_line(op: ReduceOp) -> Line
    ensures { result ≡ reduce_line op }
{
    match op {
        ReduceOp::Vredsum => opm(0x00, Forms::V),
        ReduceOp::Vredand => opm(0x01, Forms::V),
        ReduceOp::Vredor => opm(0x02, Forms::V),
        ReduceOp::Vredxor => opm(0x03, Forms::V),
        ReduceOp::Vredminu => opm(0x04, Forms::V),
        ReduceOp::Vredmin => opm(0x05, Forms::V),
        ReduceOp::Vredmaxu => opm(0x06, Forms::V),
        ReduceOp::Vredmax => opm(0x07, Forms::V),
    }
}

/// Reductions to twice the width.
fn widen_reduce_line(op: WidenReduceOp) -> Line
    ensures { result ≡ widen_reduce_line op }
{
    match op {
        WidenReduceOp::Vwredsumu => opi(0x30, Forms::V),
        WidenReduceOp::Vwredsum => opi(0x31, Forms::V),
    }
}

/// Slides and gathers.
fn permute_line(op: PermuteOp) -> Line
    ensures { result ≡ permute_line op }
{
    match op {
        PermuteOp::Vrgather => opi(0x0c, Forms::Vxi),
        PermuteOp::Vrgatherei16 => opi(0x0e, Forms::V),
        PermuteOp::Vslideup => opi(0x0e, Forms::Xi),
        PermuteOp::Vslidedown => opi(0x0f, Forms::Xi),
        PermuteOp::Vslide1up => opm(0x0e, Forms::X),
        PermuteOp::Vslide1down => opm(0x0f, Forms::X),
    }
}

/// The entry of an operation with v0 as an operand.
pub(crate) fn carry_line(op: CarryOp) -> Line
    ensures { result ≡ carry_line op }
{
    match op {
        CarryOp::Vadc => opi(0x10, Forms::Vxi),
        CarryOp::Vsbc => opi(0x12, Forms::Vx),
        CarryOp::Vmerge => opi(0x17, Forms::Vxi),
    }
}

/// The entry of an operation.
pub(crate) fn line(op: VectorOp) -> Line
    ensures { result ≡ line op }
{
    match op {
        VectorOp::Binary(op) => binary_line(op),
        VectorOp::CarryOut(op) => carry_out_line(op),
        VectorOp::Compare(op) => compare_line(op),
        VectorOp::FixedPoint(op) => fixed_point_line(op),
        VectorOp::NarrowShift(op) => narrow_shift_line(op),
        VectorOp::Clip(op) => clip_line(op),
        VectorOp::Widen(op) => widen_line(op),
        VectorOp::WideSource(op) => wide_source_line(op),
        VectorOp::MultiplyAdd(op) => multiply_add_line(op),
        VectorOp::WidenMultiplyAdd(op) => widen_multiply_add_line(op),
        VectorOp::Reduce(op) => reduce_line(op),
        VectorOp::WidenReduce(op) => widen_reduce_line(op),
        VectorOp::Permute(op) => permute_line(op),
    }
}
