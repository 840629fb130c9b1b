//! Operations of one width ("V" Vector Extension 1.0, sections 11.1, 11.4 to 11.6, 11.9 to 11.11, 11.13, 11.15 and
//! 11.16). `a` is vs2, `b` is vs1 or the other second operand, and `d` is vd.
use crate::comparison::{Case, Kernel, MASKED, Sweep, compare_kernels};
use crate::numbers::{bit_at, shift, signed, unsigned};
use crate::operands::Operands;
use crate::report::Report;
use crate::variants::Variants;
use lane_arith::{Binary, Copies, Lane, MultiplyAdd, WithMaskOperand, fill, write_results};
use rv_model::instructions::operations::{BinaryOp, CarryOp, MultiplyAddOp};

const BINARY: [(BinaryOp, &str); 21] = [
    (BinaryOp::Vadd, "vadd"),
    (BinaryOp::Vsub, "vsub"),
    (BinaryOp::Vrsub, "vrsub"),
    (BinaryOp::Vminu, "vminu"),
    (BinaryOp::Vmin, "vmin"),
    (BinaryOp::Vmaxu, "vmaxu"),
    (BinaryOp::Vmax, "vmax"),
    (BinaryOp::Vand, "vand"),
    (BinaryOp::Vor, "vor"),
    (BinaryOp::Vxor, "vxor"),
    (BinaryOp::Vsll, "vsll"),
    (BinaryOp::Vsrl, "vsrl"),
    (BinaryOp::Vsra, "vsra"),
    (BinaryOp::Vdivu, "vdivu"),
    (BinaryOp::Vdiv, "vdiv"),
    (BinaryOp::Vremu, "vremu"),
    (BinaryOp::Vrem, "vrem"),
    (BinaryOp::Vmulhu, "vmulhu"),
    (BinaryOp::Vmul, "vmul"),
    (BinaryOp::Vmulhsu, "vmulhsu"),
    (BinaryOp::Vmulh, "vmulh"),
];

const MULTIPLY_ADDS: [(MultiplyAddOp, &str); 4] = [
    (MultiplyAddOp::Vmadd, "vmadd"),
    (MultiplyAddOp::Vnmsub, "vnmsub"),
    (MultiplyAddOp::Vmacc, "vmacc"),
    (MultiplyAddOp::Vnmsac, "vnmsac"),
];

const CARRIES: [(CarryOp, &str); 3] = [
    (CarryOp::Vadc, "vadc"),
    (CarryOp::Vsbc, "vsbc"),
    (CarryOp::Vmerge, "vmerge"),
];

const COPIES: [(Copied, &str); 2] = [
    (Copied::Elements, "vmv.v.v"),
    (Copied::Number, "one number in a range"),
];

/// The quotient or remainder in whole numbers. If the divisor is 0, the quotient is all ones, and the remainder is the
/// dividend.
fn divided(op: BinaryOp, a: i128, b: i128) -> i128 {
    match op {
        BinaryOp::Vdivu | BinaryOp::Vdiv => a.checked_div(b).unwrap_or(-1),
        _ => a.checked_rem(b).unwrap_or(a),
    }
}

/// The upper half of a product of two unsigned numbers of `bits` bits.
fn upper_half(a: i128, b: i128, bits: u32) -> i128 {
    let product = a.cast_unsigned().wrapping_mul(b.cast_unsigned());
    (product >> (bits % 128)).cast_signed()
}

impl Kernel for BinaryOp {
    fn write<N: Lane, W: Lane>(&self, case: &Case<'_>, destination: &mut [u8]) -> bool {
        let Operands { a, b, .. } = case.operands;
        let kernel = Binary { op: *self, a, b };
        write_results::<N, Binary<'_>>(&kernel, case.body, destination, case.fill);
        false
    }

    fn number(&self, case: &Case<'_>, index: usize) -> i128 {
        let Operands { a, b, .. } = case.operands;
        let bits = case.bits;
        let (x, y) = (unsigned(a, bits, index), unsigned(b, bits, index));
        let (signed_x, signed_y) = (signed(a, bits, index), signed(b, bits, index));
        match *self {
            BinaryOp::Vadd => x.wrapping_add(y),
            BinaryOp::Vsub => x.wrapping_sub(y),
            BinaryOp::Vrsub => y.wrapping_sub(x),
            BinaryOp::Vminu => x.min(y),
            BinaryOp::Vmin => signed_x.min(signed_y),
            BinaryOp::Vmaxu => x.max(y),
            BinaryOp::Vmax => signed_x.max(signed_y),
            BinaryOp::Vand => x & y,
            BinaryOp::Vor => x | y,
            BinaryOp::Vxor => x ^ y,
            BinaryOp::Vsll => x << shift(y, bits),
            BinaryOp::Vsrl => x >> shift(y, bits),
            BinaryOp::Vsra => signed_x >> shift(y, bits),
            BinaryOp::Vdivu | BinaryOp::Vremu => divided(*self, x, y),
            BinaryOp::Vdiv | BinaryOp::Vrem => divided(*self, signed_x, signed_y),
            BinaryOp::Vmul => x.wrapping_mul(y),
            BinaryOp::Vmulhu => upper_half(x, y, bits),
            BinaryOp::Vmulhsu => signed_x.wrapping_mul(y) >> (bits % 128),
            BinaryOp::Vmulh => signed_x.wrapping_mul(signed_y) >> (bits % 128),
        }
    }
}

impl Kernel for MultiplyAddOp {
    fn write<N: Lane, W: Lane>(&self, case: &Case<'_>, destination: &mut [u8]) -> bool {
        let Operands { a, b, d } = case.operands;
        let kernel = MultiplyAdd { op: *self, a, b, d };
        write_results::<N, MultiplyAdd<'_>>(&kernel, case.body, destination, case.fill);
        false
    }

    fn number(&self, case: &Case<'_>, index: usize) -> i128 {
        let Operands { a, b, d } = case.operands;
        let (vs2, vs1) = (unsigned(a, case.bits, index), unsigned(b, case.bits, index));
        let vd = unsigned(d, case.bits, index);
        match *self {
            MultiplyAddOp::Vmadd => vs1.wrapping_mul(vd).wrapping_add(vs2),
            MultiplyAddOp::Vnmsub => vs2.wrapping_sub(vs1.wrapping_mul(vd)),
            MultiplyAddOp::Vmacc => vs1.wrapping_mul(vs2).wrapping_add(vd),
            MultiplyAddOp::Vnmsac => vd.wrapping_sub(vs1.wrapping_mul(vs2)),
        }
    }
}

impl Kernel for CarryOp {
    fn write<N: Lane, W: Lane>(&self, case: &Case<'_>, destination: &mut [u8]) -> bool {
        let Operands { a, b, .. } = case.operands;
        let v0 = &case.variant.bits;
        let kernel = WithMaskOperand {
            op: *self,
            a,
            b,
            v0,
        };
        write_results::<N, WithMaskOperand<'_>>(&kernel, case.body, destination, case.fill);
        false
    }

    fn number(&self, case: &Case<'_>, index: usize) -> i128 {
        let x = unsigned(&case.operands.a, case.bits, index);
        let y = unsigned(&case.operands.b, case.bits, index);
        let carry = bit_at(&case.variant.bits, index);
        match *self {
            CarryOp::Vadc => x.wrapping_add(y).wrapping_add(i128::from(carry)),
            CarryOp::Vsbc => x.wrapping_sub(y).wrapping_sub(i128::from(carry)),
            CarryOp::Vmerge => { if carry { y } else { x } }
        }
    }
}

/// Copies of elements, or of the low bits of one number.
pub(crate) enum Copied {
    Elements,
    Number,
}

impl Kernel for Copied {
    fn write<N: Lane, W: Lane>(&self, case: &Case<'_>, destination: &mut [u8]) -> bool {
        let (start, end) = (case.body.start(), case.body.end());
        match *self {
            Copied::Elements => {
                let kernel = Copies {
                    b: &case.operands.b,
                };
                write_results::<N, Copies<'_>>(&kernel, case.body, destination, case.fill);
            }
            Copied::Number => fill(N::low_bits(case.variant.amount), start, end, destination),
        }
        false
    }

    fn number(&self, case: &Case<'_>, index: usize) -> i128 {
        match *self {
            Copied::Elements => unsigned(&case.operands.b, case.bits, index),
            Copied::Number => i128::from(case.variant.amount),
        }
    }
}

/// Carries, borrows and merges, with each mask operand.
const CARRIED: Sweep = Sweep {
    maskings: 1,
    variants: Variants::Operands,
    ..MASKED
};

/// Copies, without a mask, with a scalar.
const COPIED: Sweep = Sweep {
    maskings: 1,
    variants: Variants::Scalar,
    ..MASKED
};

/// Compares all operations of one width.
pub(crate) fn compare(report: &mut Report) {
    compare_kernels(report, &BINARY, &MASKED);
    compare_kernels(report, &MULTIPLY_ADDS, &MASKED);
    compare_kernels(report, &CARRIES, &CARRIED);
    compare_kernels(report, &COPIES, &COPIED);
}
