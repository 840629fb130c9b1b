//! Fixed-point operations ("V" Vector Extension 1.0, chapter 12, and section 3.8 for the rounding modes). `a` is
//! vs2, and `b` is vs1 or the other second operand.
use crate::comparison::{Case, Kernel, Limits, MASKED, Sweep, compare_kernels};
use crate::numbers::{low_bits, power, shift, signed, unsigned};
use crate::operands::{Inputs, Operands};
use crate::report::Report;
use crate::variants::Variants;
use lane_arith::Lane;
use lane_fixed::{Clip, FixedPoint, write_saturating_results};
use rv_model::RoundingMode;
use rv_model::instructions::operations::{ClipOp, FixedPointOp};
use std::marker::PhantomData;

const UNSIGNED: [(FixedPointOp, &str); 2] = [
    (FixedPointOp::Vsaddu, "vsaddu"),
    (FixedPointOp::Vssubu, "vssubu"),
];

const SIGNED: [(FixedPointOp, &str); 3] = [
    (FixedPointOp::Vsadd, "vsadd"),
    (FixedPointOp::Vssub, "vssub"),
    (FixedPointOp::Vsmul, "vsmul"),
];

const ROUNDED: [(FixedPointOp, &str); 6] = [
    (FixedPointOp::Vssrl, "vssrl"),
    (FixedPointOp::Vssra, "vssra"),
    (FixedPointOp::Vaaddu, "vaaddu"),
    (FixedPointOp::Vaadd, "vaadd"),
    (FixedPointOp::Vasubu, "vasubu"),
    (FixedPointOp::Vasub, "vasub"),
];

const SMALL_UNSIGNED: [(FixedPointOp, &str); 2] = [
    (FixedPointOp::Vsaddu, "vsaddu of small numbers"),
    (FixedPointOp::Vssubu, "vssubu of small numbers"),
];

const SMALL_SIGNED: [(FixedPointOp, &str); 2] = [
    (FixedPointOp::Vsadd, "vsadd of small numbers"),
    (FixedPointOp::Vssub, "vssub of small numbers"),
];

/// In each rounding mode, which is the variant.
const IN_EACH_MODE: Sweep = Sweep {
    variants: Variants::Modes,
    ..MASKED
};

/// The same, to the nearest unsigned number.
const TO_UNSIGNED: Sweep = Sweep {
    limits: Limits::Unsigned,
    ..IN_EACH_MODE
};

/// The same, to the nearest signed number.
const TO_SIGNED: Sweep = Sweep {
    limits: Limits::Signed,
    ..IN_EACH_MODE
};

/// The same, for small numbers.
const SMALL_TO_UNSIGNED: Sweep = Sweep {
    inputs: Inputs::Small,
    ..TO_UNSIGNED
};

const SMALL_TO_SIGNED: Sweep = Sweep {
    inputs: Inputs::Small,
    ..TO_SIGNED
};

/// Clips to half the width.
const CLIPPED_UNSIGNED: Sweep = Sweep {
    greatest: 32,
    ..TO_UNSIGNED
};

/// The same, to signed numbers.
const CLIPPED_SIGNED: Sweep = Sweep {
    greatest: 32,
    ..TO_SIGNED
};

/// The rounding mode of a case: its variant is the mode's number in vxrm.
fn mode(case: &Case<'_>) -> RoundingMode {
    match case.variant.amount {
        0 => RoundingMode::NearestUp,
        1 => RoundingMode::NearestEven,
        2 => RoundingMode::Down,
        _ => RoundingMode::Odd,
    }
}

/// A number divided by two to the power `exponent` and rounded by its remainder, in whole numbers.
fn rounded(case: &Case<'_>, number: i128, exponent: u32) -> i128 {
    let floor = number >> (exponent % 128);
    let unit = power(exponent);
    let rest = low_bits(number, exponent);
    let is_odd = floor & 1 == 1;
    let twice = rest.wrapping_mul(2);
    let goes_up = match mode(case) {
        RoundingMode::NearestUp => twice >= unit,
        RoundingMode::NearestEven => twice > unit || (twice == unit && is_odd),
        RoundingMode::Down => false,
        RoundingMode::Odd => rest != 0 && !is_odd,
    };
    floor.wrapping_add(i128::from(goes_up))
}

impl Kernel for FixedPointOp {
    fn write<N: Lane, W: Lane>(&self, case: &Case<'_>, destination: &mut [u8]) -> bool {
        let kernel = FixedPoint {
            op: *self,
            mode: mode(case),
            a: &case.operands.a,
            b: &case.operands.b,
        };
        write_saturating_results::<N, FixedPoint<'_>>(&kernel, case.body, destination, case.fill)
    }

    fn number(&self, case: &Case<'_>, index: usize) -> i128 {
        let Operands { a, b, .. } = case.operands;
        let bits = case.bits;
        let (x, y) = (unsigned(a, bits, index), unsigned(b, bits, index));
        let (signed_x, signed_y) = (signed(a, bits, index), signed(b, bits, index));
        match *self {
            FixedPointOp::Vsaddu => x.wrapping_add(y),
            FixedPointOp::Vsadd => signed_x.wrapping_add(signed_y),
            FixedPointOp::Vssubu => x.wrapping_sub(y),
            FixedPointOp::Vssub => signed_x.wrapping_sub(signed_y),
            FixedPointOp::Vsmul => {
                rounded(case, signed_x.wrapping_mul(signed_y), bits.wrapping_sub(1))
            }
            FixedPointOp::Vssrl => rounded(case, x, shift(y, bits)),
            FixedPointOp::Vssra => rounded(case, signed_x, shift(y, bits)),
            FixedPointOp::Vaaddu => rounded(case, x.wrapping_add(y), 1),
            FixedPointOp::Vaadd => rounded(case, signed_x.wrapping_add(signed_y), 1),
            FixedPointOp::Vasubu => rounded(case, x.wrapping_sub(y), 1),
            FixedPointOp::Vasub => rounded(case, signed_x.wrapping_sub(signed_y), 1),
        }
    }
}

impl Kernel for ClipOp {
    fn write<N: Lane, W: Lane>(&self, case: &Case<'_>, destination: &mut [u8]) -> bool {
        let kernel = Clip::<'_, W> {
            op: *self,
            mode: mode(case),
            a: &case.operands.a,
            b: &case.operands.b,
            element: PhantomData,
        };
        write_saturating_results::<N, Clip<'_, W>>(&kernel, case.body, destination, case.fill)
    }

    fn number(&self, case: &Case<'_>, index: usize) -> i128 {
        let Operands { a, b, .. } = case.operands;
        let twice = 2 * (case.bits % 64);
        let amount = shift(unsigned(b, case.bits, index), twice);
        match *self {
            ClipOp::Vnclipu => rounded(case, unsigned(a, twice, index), amount),
            ClipOp::Vnclip => rounded(case, signed(a, twice, index), amount),
        }
    }
}

/// Compares operations that saturate.
fn compare_saturating(report: &mut Report) {
    compare_kernels(report, &UNSIGNED, &TO_UNSIGNED);
    compare_kernels(report, &SMALL_UNSIGNED, &SMALL_TO_UNSIGNED);
    compare_kernels(report, &SIGNED, &TO_SIGNED);
    compare_kernels(report, &SMALL_SIGNED, &SMALL_TO_SIGNED);
}

/// Compares all fixed-point operations.
pub(crate) fn compare(report: &mut Report) {
    compare_saturating(report);
    compare_kernels(report, &ROUNDED, &IN_EACH_MODE);
    compare_kernels(report, &[(ClipOp::Vnclipu, "vnclipu")], &CLIPPED_UNSIGNED);
    compare_kernels(report, &[(ClipOp::Vnclip, "vnclip")], &CLIPPED_SIGNED);
}
