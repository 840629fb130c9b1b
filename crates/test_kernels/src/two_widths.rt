//! Operations of two widths ("V" Vector Extension 1.0, sections 11.2, 11.3, 11.7, 11.12 and 11.14). `a` is vs2, `b` is
//! vs1 or the other second operand, and `d` is vd.
ghost use Rattle.std.specs.Prelude.{◌*◌, ◌≤◌, length};
ghost use Rattle.rv_model.specs.vector.Groups.{width_bytes};

use crate::comparison::{Case, Kernel, MASKED, Sweep, compare_kernels};
use crate::numbers::{shift, signed, unsigned};
use crate::operands::Operands;
use crate::report::Report;
use lane_arith::{
    Extend, Lane, NarrowShift, SecondElements, WideSource, Widen, WidenMultiplyAdd, write_results,
};
use rv_model::instructions::operations::{
    ExtendOp, NarrowShiftOp, WideSourceOp, WidenMultiplyAddOp, WidenOp,
};
use std::marker::PhantomData;

const WIDEN: [(WidenOp, &str); 7] = [
    (WidenOp::Vwaddu, "vwaddu.vv"),
    (WidenOp::Vwadd, "vwadd.vv"),
    (WidenOp::Vwsubu, "vwsubu.vv"),
    (WidenOp::Vwsub, "vwsub.vv"),
    (WidenOp::Vwmulu, "vwmulu"),
    (WidenOp::Vwmulsu, "vwmulsu"),
    (WidenOp::Vwmul, "vwmul"),
];

const WIDE_SOURCES: [(WideSourceOp, &str); 4] = [
    (WideSourceOp::Vwaddu, "vwaddu.wv"),
    (WideSourceOp::Vwadd, "vwadd.wv"),
    (WideSourceOp::Vwsubu, "vwsubu.wv"),
    (WideSourceOp::Vwsub, "vwsub.wv"),
];

const MULTIPLY_ADDS: [(WidenMultiplyAddOp, &str); 4] = [
    (WidenMultiplyAddOp::Vwmaccu, "vwmaccu"),
    (WidenMultiplyAddOp::Vwmacc, "vwmacc"),
    (WidenMultiplyAddOp::Vwmaccus, "vwmaccus"),
    (WidenMultiplyAddOp::Vwmaccsu, "vwmaccsu"),
];

const NARROW_SHIFTS: [(NarrowShiftOp, &str); 2] = [
    (NarrowShiftOp::Vnsrl, "vnsrl"),
    (NarrowShiftOp::Vnsra, "vnsra"),
];

/// Extensions from half the width, and below from a quarter and an eighth.
const HALVES: [(ExtendOp, &str); 2] = [
    (ExtendOp::VzextVf2, "vzext.vf2"),
    (ExtendOp::VsextVf2, "vsext.vf2"),
];

const QUARTERS: [(ExtendOp, &str); 2] = [
    (ExtendOp::VzextVf4, "vzext.vf4"),
    (ExtendOp::VsextVf4, "vsext.vf4"),
];

const EIGHTHS: [(ExtendOp, &str); 2] = [
    (ExtendOp::VzextVf8, "vzext.vf8"),
    (ExtendOp::VsextVf8, "vsext.vf8"),
];

/// Results of twice the width.
const WIDENING: Sweep = Sweep {
    greatest: 32,
    times: 2,
    ..MASKED
};

/// Results of half the width.
const NARROWING: Sweep = Sweep {
    times: 1,
    ..WIDENING
};

/// Results of four times the width.
const TO_FOUR_TIMES: Sweep = Sweep {
    greatest: 16,
    times: 4,
    ..MASKED
};

/// Results of eight times the width.
const TO_EIGHT_TIMES: Sweep = Sweep {
    greatest: 8,
    times: 8,
    ..MASKED
};

impl Kernel for WidenOp {
    fn write<N: Lane, W: Lane>(&self, case: &Case<'_>, destination: &mut [u8]) -> bool {
        let kernel = Widen::<'_, N> {
            op: *self,
            a: &case.operands.a,
            b: SecondElements::of(&case.operands.b),
            element: PhantomData,
        };
        write_results::<W, Widen<'_, N>>(&kernel, case.body, destination, case.fill);
        false
    }

    fn number(&self, case: &Case<'_>, index: usize) -> i128 {
        let bits = case.bits;
        let Operands { a, b, .. } = case.operands;
        let (x, y) = (unsigned(a, bits, index), unsigned(b, bits, index));
        let (signed_x, signed_y) = (signed(a, bits, index), signed(b, bits, index));
        match *self {
            WidenOp::Vwaddu => x.wrapping_add(y),
            WidenOp::Vwadd => signed_x.wrapping_add(signed_y),
            WidenOp::Vwsubu => x.wrapping_sub(y),
            WidenOp::Vwsub => signed_x.wrapping_sub(signed_y),
            WidenOp::Vwmulu => x.wrapping_mul(y),
            WidenOp::Vwmulsu => signed_x.wrapping_mul(y),
            WidenOp::Vwmul => signed_x.wrapping_mul(signed_y),
        }
    }
}

impl Kernel for WideSourceOp {
    fn write<N: Lane, W: Lane>(&self, case: &Case<'_>, destination: &mut [u8]) -> bool {
        let kernel = WideSource::<'_, N> {
            op: *self,
            a: &case.operands.a,
            b: &case.operands.b,
            element: PhantomData,
        };
        write_results::<W, WideSource<'_, N>>(&kernel, case.body, destination, case.fill);
        false
    }

    fn number(&self, case: &Case<'_>, index: usize) -> i128 {
        let Operands { a, b, .. } = case.operands;
        let (bits, twice) = (case.bits, case.bits.wrapping_mul(2));
        match *self {
            WideSourceOp::Vwaddu => unsigned(a, twice, index).wrapping_add(unsigned(
                b, bits, index,
            )),
            WideSourceOp::Vwadd => signed(a, twice, index).wrapping_add(signed(b, bits, index)),
            WideSourceOp::Vwsubu => unsigned(a, twice, index).wrapping_sub(unsigned(
                b, bits, index,
            )),
            WideSourceOp::Vwsub => signed(a, twice, index).wrapping_sub(signed(b, bits, index)),
        }
    }
}

impl Kernel for WidenMultiplyAddOp {
    fn write<N: Lane, W: Lane>(&self, case: &Case<'_>, destination: &mut [u8]) -> bool {
        let Operands { a, b, d } = case.operands;
        let kernel = WidenMultiplyAdd::<'_, N> {
            op: *self,
            a,
            b,
            d,
            element: PhantomData,
        };
        write_results::<W, WidenMultiplyAdd<'_, N>>(&kernel, case.body, destination, case.fill);
        false
    }

    fn number(&self, case: &Case<'_>, index: usize) -> i128 {
        let bits = case.bits;
        let Operands { a, b, d } = case.operands;
        let (vs2, signed_vs2) = (unsigned(a, bits, index), signed(a, bits, index));
        let (vs1, signed_vs1) = (unsigned(b, bits, index), signed(b, bits, index));
        let product = match *self {
            WidenMultiplyAddOp::Vwmaccu => vs1.wrapping_mul(vs2),
            WidenMultiplyAddOp::Vwmacc => signed_vs1.wrapping_mul(signed_vs2),
            WidenMultiplyAddOp::Vwmaccsu => signed_vs1.wrapping_mul(vs2),
            WidenMultiplyAddOp::Vwmaccus => vs1.wrapping_mul(signed_vs2),
        };
        product.wrapping_add(unsigned(d, bits.wrapping_mul(2), index))
    }
}

impl Kernel for NarrowShiftOp {
    fn write<N: Lane, W: Lane>(&self, case: &Case<'_>, destination: &mut [u8]) -> bool {
        let kernel = NarrowShift::<'_, W> {
            op: *self,
            a: &case.operands.a,
            b: SecondElements::of(&case.operands.b),
            element: PhantomData,
        };
        write_results::<N, NarrowShift<'_, W>>(&kernel, case.body, destination, case.fill);
        false
    }

    fn number(&self, case: &Case<'_>, index: usize) -> i128 {
        let Operands { a, b, .. } = case.operands;
        let twice = 2 * (case.bits % 64);
        let amount = shift(unsigned(b, case.bits, index), twice);
        match *self {
            NarrowShiftOp::Vnsrl => unsigned(a, twice, index) >> amount,
            NarrowShiftOp::Vnsra => signed(a, twice, index) >> amount,
        }
    }
}

/// Extends elements to the width of a result.
fn extend<N: Lane>(op: ExtendOp, case: &Case<'_>, destination: &mut [u8])
    requires elements { width_bytes N.width * 65 ≤ 520 }
    requires count { case.now.body.now.end ≤ 65 }
    requires room { 8 * case.now.body.now.end ≤ length destination.old }
{
    let kernel = Extend::<'_, N> {
        op,
        a: &case.operands.a,
        element: PhantomData,
    };
    let (body, fill) = (case.body, case.fill);
    match case.bits.wrapping_mul(case.times) {
        16 => write_results::<u16, Extend<'_, N>>(&kernel, body, destination, fill),
        32 => write_results::<u32, Extend<'_, N>>(&kernel, body, destination, fill),
        _ => write_results::<u64, Extend<'_, N>>(&kernel, body, destination, fill),
    }
}

impl Kernel for ExtendOp {
    fn write<N: Lane, W: Lane>(&self, case: &Case<'_>, destination: &mut [u8]) -> bool {
        if 8 * case.body.end() <= destination.len() {
            extend::<N>(*self, case, destination);
        }
        false
    }

    fn number(&self, case: &Case<'_>, index: usize) -> i128 {
        match *self {
            ExtendOp::VzextVf2 | ExtendOp::VzextVf4 | ExtendOp::VzextVf8 => {
                unsigned(&case.operands.a, case.bits, index)
            }
            ExtendOp::VsextVf2 | ExtendOp::VsextVf4 | ExtendOp::VsextVf8 => {
                signed(&case.operands.a, case.bits, index)
            }
        }
    }
}

/// Compares extensions.
fn compare_extensions(report: &mut Report) {
    compare_kernels(report, &HALVES, &WIDENING);
    compare_kernels(report, &QUARTERS, &TO_FOUR_TIMES);
    compare_kernels(report, &EIGHTHS, &TO_EIGHT_TIMES);
}

/// Compares all operations of two widths.
pub(crate) fn compare(report: &mut Report) {
    compare_kernels(report, &WIDEN, &WIDENING);
    compare_kernels(report, &WIDE_SOURCES, &WIDENING);
    compare_kernels(report, &MULTIPLY_ADDS, &WIDENING);
    compare_kernels(report, &NARROW_SHIFTS, &NARROWING);
    compare_extensions(report);
}
