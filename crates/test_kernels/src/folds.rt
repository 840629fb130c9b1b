//! Reductions, and counts and searches of set bits ("V" Vector Extension 1.0, chapter 14, sections 15.2 and 15.3):
//! their result is element 0. `a` is vs2, and the first element of `b` is that of vs1.
ghost use Rattle.std.specs.Prelude.{◌*◌, ◌≤◌, length};
ghost use Rattle.rv_model.specs.vector.Groups.{width_bytes};

use crate::comparison::{Case, Kernel, MASKED, Sweep, Written, compare_kernels, is_active};
use crate::numbers::{bit_at, low_bits, signed, two_complement, unsigned};
use crate::operands::Operands;
use crate::report::Report;
use crate::variants::Variants;
use lane_arith::Lane;
use lane_reduce::{Combine, Reduction, WideningReduction, reduce};
use mask_unit::{count, first};
use rv_model::instructions::operations::{ReduceOp, WidenReduceOp};

const REDUCTIONS: [(ReduceOp, &str); 8] = [
    (ReduceOp::Vredsum, "vredsum"),
    (ReduceOp::Vredand, "vredand"),
    (ReduceOp::Vredor, "vredor"),
    (ReduceOp::Vredxor, "vredxor"),
    (ReduceOp::Vredminu, "vredminu"),
    (ReduceOp::Vredmin, "vredmin"),
    (ReduceOp::Vredmaxu, "vredmaxu"),
    (ReduceOp::Vredmax, "vredmax"),
];

const WIDENING: [(WidenReduceOp, &str); 2] = [
    (WidenReduceOp::Vwredsumu, "vwredsumu"),
    (WidenReduceOp::Vwredsum, "vwredsum"),
];

/// A count of set bits, the index of the first one, or both as elements 0 and 1.
pub(crate) enum SetBits {
    Count,
    First,
    Both,
}

const COUNTS: [(SetBits, &str); 2] = [(SetBits::Count, "vcpop"), (SetBits::First, "vfirst")];

/// Reductions at each width.
const REDUCED: Sweep = Sweep {
    maskings: 4,
    written: Written::First,
    ..MASKED
};

/// Reductions to twice the width.
const WIDENED: Sweep = Sweep {
    greatest: 32,
    times: 2,
    ..REDUCED
};

/// Counts and searches of four masks, as numbers of 64 bits.
const COUNTED: Sweep = Sweep {
    least: 64,
    variants: Variants::Scanned,
    ..REDUCED
};

/// The combination of two numbers of `bits` bits.
fn combined(op: ReduceOp, bits: u32, x: i128, y: i128) -> i128 {
    let (signed_x, signed_y) = (two_complement(x, bits), two_complement(y, bits));
    let number = match op {
        ReduceOp::Vredsum => x.wrapping_add(y),
        ReduceOp::Vredand => x & y,
        ReduceOp::Vredor => x | y,
        ReduceOp::Vredxor => x ^ y,
        ReduceOp::Vredminu => x.min(y),
        ReduceOp::Vredmin => signed_x.min(signed_y),
        ReduceOp::Vredmaxu => x.max(y),
        ReduceOp::Vredmax => signed_x.max(signed_y),
    };
    low_bits(number, bits)
}

/// Calls a reduction, and stores its result as element 0.
fn reduce_to<E: Lane, R: Lane, C: Combine<E, R>>(
    kernel: &C,
    case: &Case<'_>,
    destination: &mut [u8],
)
    requires first { width_bytes R.width * 65 ≤ 520 }
    requires count { case.now.body.now.end ≤ 65 }
    requires elements { width_bytes E.width * case.now.body.now.end ≤ length destination.old }
    requires least { 16 ≤ length destination.old }
    requires most { length destination.old ≤ 520 }
{
    let Operands { a, b, .. } = case.operands;
    let elements = &a[..destination.len()];
    reduce::<E, R, C>(kernel, R::load(b, 0), elements, case.body).store(destination, 0);
}

impl Kernel for ReduceOp {
    fn write<N: Lane, W: Lane>(&self, case: &Case<'_>, destination: &mut [u8]) -> bool {
        let kernel = &Reduction { op: *self };
        reduce_to::<N, N, Reduction>(kernel, case, destination);
        false
    }

    fn number(&self, case: &Case<'_>, _index: usize) -> i128 {
        let mut number = unsigned(&case.operands.b, case.bits, 0);
        for index in 0..case.body.end() {
            if is_active(case.body, index) {
                let element = unsigned(&case.operands.a, case.bits, index);
                number = combined(*self, case.bits, number, element);
            }
        }
        number
    }
}

impl Kernel for WidenReduceOp {
    fn write<N: Lane, W: Lane>(&self, case: &Case<'_>, destination: &mut [u8]) -> bool {
        let kernel = &WideningReduction { op: *self };
        reduce_to::<N, W, WideningReduction>(kernel, case, destination);
        false
    }

    fn number(&self, case: &Case<'_>, _index: usize) -> i128 {
        let (bits, twice) = (case.bits, case.bits.wrapping_mul(2));
        let mut sum = unsigned(&case.operands.b, twice, 0);
        for index in 0..case.body.end() {
            if is_active(case.body, index) {
                sum = sum.wrapping_add(match *self {
                    WidenReduceOp::Vwredsumu => unsigned(&case.operands.a, bits, index),
                    WidenReduceOp::Vwredsum => signed(&case.operands.a, bits, index),
                });
            }
        }
        low_bits(sum, twice)
    }
}

impl Kernel for SetBits {
    /// The variant is the bits of vs2.
    fn write<N: Lane, W: Lane>(&self, case: &Case<'_>, destination: &mut [u8]) -> bool {
        let bits = &case.variant.bits;
        let counted = count(case.body, bits) as u64;
        let found = match first(case.body, bits) {
            Some(index) => index as u64,
            None => u64::MAX,
        };
        match *self {
            SetBits::Count => counted.store(destination, 0),
            SetBits::First => found.store(destination, 0),
            SetBits::Both => {
                counted.store(destination, 0);
                found.store(destination, 1);
            }
        }
        false
    }

    fn number(&self, case: &Case<'_>, _index: usize) -> i128 {
        let bits = &case.variant.bits;
        let mut found: i128 = 0;
        let mut least = -1;
        for index in 0..case.body.end() {
            if is_active(case.body, index) && bit_at(bits, index) {
                found = found.wrapping_add(1);
                least = if found == 1 { index as i128 } else { least };
            }
        }
        match *self {
            SetBits::Count | SetBits::Both => found,
            SetBits::First => least,
        }
    }
}

/// Compares reductions, counts and searches.
pub(crate) fn compare(report: &mut Report) {
    compare_kernels(report, &REDUCTIONS, &REDUCED);
    compare_kernels(report, &WIDENING, &WIDENED);
    compare_kernels(report, &COUNTS, &COUNTED);
}
