//! Instructions whose results are bits ("V" Vector Extension 1.0, sections 11.4, 11.8, 15.1 and 15.4 to 15.6). `a` is
//! vs2, and `b` is vs1 or the other second operand.
ghost use Rattle.std.specs.Prelude.{◌≤◌, length};

use crate::comparison::{Case, Kernel, MASKED, Sweep, Written, compare_kernels, is_active};
use crate::numbers::{bit_at, power, signed, unsigned};
use crate::operands::{Inputs, Operands};
use crate::report::Report;
use crate::variants::Variants;
use lane_arith::{CarryOut, Compare, Lane, SecondElements, write_mask_results};
use mask_unit::{MaskLogic, MaskScan, first};
use rv_model::instructions::operations::{CarryOutOp, CompareOp, MaskLogicOp, MaskScanOp};

const COMPARISONS: [(CompareOp, &str); 8] = [
    (CompareOp::Vmseq, "vmseq"),
    (CompareOp::Vmsne, "vmsne"),
    (CompareOp::Vmsltu, "vmsltu"),
    (CompareOp::Vmslt, "vmslt"),
    (CompareOp::Vmsleu, "vmsleu"),
    (CompareOp::Vmsle, "vmsle"),
    (CompareOp::Vmsgtu, "vmsgtu"),
    (CompareOp::Vmsgt, "vmsgt"),
];

const CARRIES: [(CarryOutOp, &str); 2] = [
    (CarryOutOp::Vmadc, "vmadc"),
    (CarryOutOp::Vmsbc, "vmsbc"),
];

const LOGIC: [(MaskLogicOp, &str); 8] = [
    (MaskLogicOp::Vmandn, "vmandn"),
    (MaskLogicOp::Vmand, "vmand"),
    (MaskLogicOp::Vmor, "vmor"),
    (MaskLogicOp::Vmxor, "vmxor"),
    (MaskLogicOp::Vmorn, "vmorn"),
    (MaskLogicOp::Vmnand, "vmnand"),
    (MaskLogicOp::Vmnor, "vmnor"),
    (MaskLogicOp::Vmxnor, "vmxnor"),
];

const SCANS: [(MaskScanOp, &str); 3] = [
    (MaskScanOp::Vmsbf, "vmsbf"),
    (MaskScanOp::Vmsif, "vmsif"),
    (MaskScanOp::Vmsof, "vmsof"),
];

/// Comparisons, by the width of their operands.
const COMPARED: Sweep = Sweep {
    inputs: Inputs::Near,
    maskings: 4,
    written: Written::Bits,
    ..MASKED
};

/// Carries and borrows, with each mask operand and without one.
const CARRIED: Sweep = Sweep {
    maskings: 1,
    variants: Variants::Carries,
    ..COMPARED
};

/// Scans of four masks, which have no width.
const SCANS_OF_BITS: Sweep = Sweep {
    least: 1,
    greatest: 1,
    variants: Variants::Scanned,
    ..COMPARED
};

/// Mask logic, which is always unmasked.
const UNMASKED: Sweep = Sweep {
    maskings: 1,
    ..SCANS_OF_BITS
};

/// The number of bytes that have a bit for each byte of the destination, at most the 32 bytes of a register.
fn bit_bytes(destination: &[u8]) -> usize
    ensures register { result ≤ 32 }
    ensures inside { result ≤ length destination.now }
{
    (destination.len() / 8).min(32)
}

impl Kernel for CompareOp {
    fn write<N: Lane, W: Lane>(&self, case: &Case<'_>, destination: &mut [u8]) -> bool {
        let Operands { a, b, .. } = case.operands;
        let b = SecondElements::of(b);
        let kernel = Compare { op: *self, a, b };
        let count = bit_bytes(destination);
        write_mask_results::<N, Compare<'_>>(&kernel, case.body, &mut destination[..count]);
        false
    }

    fn number(&self, case: &Case<'_>, index: usize) -> i128 {
        let Operands { a, b, .. } = case.operands;
        let bits = case.bits;
        let (x, y) = (unsigned(a, bits, index), unsigned(b, bits, index));
        let (signed_x, signed_y) = (signed(a, bits, index), signed(b, bits, index));
        i128::from(match *self {
            CompareOp::Vmseq => x == y,
            CompareOp::Vmsne => x != y,
            CompareOp::Vmsltu => x < y,
            CompareOp::Vmslt => signed_x < signed_y,
            CompareOp::Vmsleu => x <= y,
            CompareOp::Vmsle => signed_x <= signed_y,
            CompareOp::Vmsgtu => x > y,
            CompareOp::Vmsgt => signed_x > signed_y,
        })
    }
}

impl Kernel for CarryOutOp {
    /// The variant is the bits of v0, unless its amount is 1.
    fn write<N: Lane, W: Lane>(&self, case: &Case<'_>, destination: &mut [u8]) -> bool {
        let kernel = CarryOut {
            op: *self,
            a: &case.operands.a,
            b: &case.operands.b,
            v0: &case.variant.bits,
            alone: case.variant.amount == 1,
        };
        let count = bit_bytes(destination);
        write_mask_results::<N, CarryOut<'_>>(&kernel, case.body, &mut destination[..count]);
        false
    }

    fn number(&self, case: &Case<'_>, index: usize) -> i128 {
        let x = unsigned(&case.operands.a, case.bits, index);
        let y = unsigned(&case.operands.b, case.bits, index);
        let carry = case.variant.amount == 0 && bit_at(&case.variant.bits, index);
        let second = y.wrapping_add(i128::from(carry));
        i128::from(match *self {
            CarryOutOp::Vmadc => x.wrapping_add(second) >= power(case.bits),
            CarryOutOp::Vmsbc => x < second,
        })
    }
}

impl Kernel for MaskLogicOp {
    fn write<N: Lane, W: Lane>(&self, case: &Case<'_>, destination: &mut [u8]) -> bool {
        let (a, b) = (&case.variant.bits, &case.variant.other);
        let kernel = MaskLogic { op: *self, a, b };
        let count = bit_bytes(destination);
        write_mask_results::<u8, MaskLogic<'_>>(&kernel, case.body, &mut destination[..count]);
        false
    }

    /// The result for two bits, from the manual's table, which has results for 11, 10, 01 and 00.
    fn number(&self, case: &Case<'_>, index: usize) -> i128 {
        let table = match *self {
            MaskLogicOp::Vmandn => 0b0100,
            MaskLogicOp::Vmand => 0b1000,
            MaskLogicOp::Vmor => 0b1110,
            MaskLogicOp::Vmxor => 0b0110,
            MaskLogicOp::Vmorn => 0b1101,
            MaskLogicOp::Vmnand => 0b0111,
            MaskLogicOp::Vmnor => 0b0001,
            MaskLogicOp::Vmxnor => 0b1001,
        };
        let a = u32::from(bit_at(&case.variant.bits, index));
        let b = u32::from(bit_at(&case.variant.other, index));
        table >> (2 * a + b) & 1
    }
}

impl Kernel for MaskScanOp {
    /// The variant is the mask that is scanned.
    fn write<N: Lane, W: Lane>(&self, case: &Case<'_>, destination: &mut [u8]) -> bool {
        let scan = MaskScan {
            op: *self,
            first: first(case.body, &case.variant.bits),
        };
        let count = bit_bytes(destination);
        write_mask_results::<u8, MaskScan>(&scan, case.body, &mut destination[..count]);
        false
    }

    fn number(&self, case: &Case<'_>, index: usize) -> i128 {
        let bits = &case.variant.bits;
        let mut is_before = true;
        for below in 0..index {
            is_before &= !(is_active(case.body, below) && bit_at(bits, below));
        }
        let is_set = is_active(case.body, index) && bit_at(bits, index);
        i128::from(match *self {
            MaskScanOp::Vmsbf => is_before && !is_set,
            MaskScanOp::Vmsif => is_before,
            MaskScanOp::Vmsof => is_before && is_set,
        })
    }
}

/// Compares all instructions with masks as results.
pub(crate) fn compare(report: &mut Report) {
    compare_kernels(report, &COMPARISONS, &COMPARED);
    compare_kernels(report, &CARRIES, &CARRIED);
    compare_kernels(report, &LOGIC, &UNMASKED);
    compare_kernels(report, &SCANS, &SCANS_OF_BITS);
}
