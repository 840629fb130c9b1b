//! Operations on masks.
use crate::by_hand::{GIVEN, Given, Row, compare_rows};
use crate::folds::SetBits;
use crate::permutations::Counting;
use crate::report::Report;
use rv_model::instructions::operations::{MaskLogicOp, MaskScanOp};

const BITS: Given = Given {
    bits_a: 0b1100,
    bits_b: 0b1010,
    d: 0xaaaa_aaaa_aaaa_aaaa_aaaa_aaaa_aaaa_aaa0,
    end: 4,
    ..GIVEN
};

const LOGIC: [Row<MaskLogicOp>; 8] = [
    (MaskLogicOp::Vmandn, "vmandn", 0, 0b1010_0100),
    (MaskLogicOp::Vmand, "vmand", 0, 0b1010_1000),
    (MaskLogicOp::Vmor, "vmor", 0, 0b1010_1110),
    (MaskLogicOp::Vmxor, "vmxor", 0, 0b1010_0110),
    (MaskLogicOp::Vmorn, "vmorn", 0, 0b1010_1101),
    (MaskLogicOp::Vmnand, "vmnand", 0, 0b1010_0111),
    (MaskLogicOp::Vmnor, "vmnor", 0, 0b1010_0001),
    (MaskLogicOp::Vmxnor, "vmxnor", 0, 0b1010_1001),
];

/// Three set bits.
const COUNTED: Given = Given {
    bits_a: 0b1001_0100,
    end: 8,
    size: 16,
    ..GIVEN
};

const COUNTED_ACTIVE: Given = Given {
    mask: Some(0b1100_0011),
    ..COUNTED
};

const COUNTED_NONE: Given = Given {
    end: 7,
    ..COUNTED_ACTIVE
};

/// A count, and the index of the first set bit, of 64 bits each.
const COUNTS: [Row<SetBits>; 1] = [(
    SetBits::Both,
    "vcpop and vfirst",
    0,
    0x0000_0000_0000_0002_0000_0000_0000_0003,
)];

const COUNTS_OF_ACTIVE: [Row<SetBits>; 1] = [(
    SetBits::Both,
    "vcpop and vfirst under a mask",
    0,
    0x0000_0000_0000_0007_0000_0000_0000_0001,
)];

const COUNTS_OF_NONE: [Row<SetBits>; 1] = [(
    SetBits::Both,
    "vcpop and vfirst of no active bits",
    0,
    0xffff_ffff_ffff_ffff_0000_0000_0000_0000,
)];

const SCANNED: Given = Given {
    bits_a: 0b0010_0100,
    d: 0xaaaa_aaaa_aaaa_aaaa_aaaa_aaaa_aaaa_aaaa,
    end: 8,
    ..GIVEN
};

const SCANNED_NONE: Given = Given {
    bits_a: 0,
    ..SCANNED
};

/// Scans of bits whose first set bit is at index 2.
const SCANS: [Row<MaskScanOp>; 3] = [
    (MaskScanOp::Vmsbf, "vmsbf", 0, 0b0000_0011),
    (MaskScanOp::Vmsif, "vmsif", 0, 0b0000_0111),
    (MaskScanOp::Vmsof, "vmsof", 0, 0b0000_0100),
];

const SCANS_OF_NONE: [Row<MaskScanOp>; 3] = [
    (MaskScanOp::Vmsbf, "vmsbf of no bits", 0, 0b1111_1111),
    (MaskScanOp::Vmsif, "vmsif of no bits", 0, 0b1111_1111),
    (MaskScanOp::Vmsof, "vmsof of no bits", 0, 0b0000_0000),
];

const BELOW: Given = Given {
    bits: 16,
    bits_a: 0b1000_1001,
    d: 0x0404_0404_0404_0404_0404_0404_0404_0404,
    room: 32,
    end: 8,
    size: 16,
    ..GIVEN
};

const BELOW_ACTIVE: Given = Given {
    bits: 8,
    mask: Some(0b1110_1011),
    d: 0xaaaa_aaaa_aaaa_aaaa_0404_0404_0404_0404,
    size: 8,
    ..BELOW
};

/// The counts of set bits below each element.
const ALL_BELOW: [Row<Counting>; 1] = [(
    Counting::Bits,
    "viota",
    0,
    0x0002_0002_0002_0002_0001_0001_0001_0000,
)];

const ACTIVE_BELOW: [Row<Counting>; 1] = [(
    Counting::Bits,
    "viota under a mask",
    0,
    0x0202_0204_0104_0100,
)];

const INDICES: Given = Given {
    bits: 32,
    start: 1,
    end: 3,
    size: 16,
    ..GIVEN
};

const NUMBERED: [Row<Counting>; 1] = [(
    Counting::Elements,
    "vid",
    0,
    0xaaaa_aaaa_0000_0002_0000_0001_aaaa_aaaa,
)];

/// Compares counts and searches.
fn compare_counts(report: &mut Report) {
    compare_rows(report, &COUNTED, &COUNTS);
    compare_rows(report, &COUNTED_ACTIVE, &COUNTS_OF_ACTIVE);
    compare_rows(report, &COUNTED_NONE, &COUNTS_OF_NONE);
}

/// Compares viota and vid.
fn compare_elements(report: &mut Report) {
    compare_rows(report, &BELOW, &ALL_BELOW);
    compare_rows(report, &BELOW_ACTIVE, &ACTIVE_BELOW);
    compare_rows(report, &INDICES, &NUMBERED);
}

/// Compares all tables of operations on masks.
pub(crate) fn compare(report: &mut Report) {
    compare_rows(report, &BITS, &LOGIC);
    compare_counts(report);
    compare_rows(report, &SCANNED, &SCANS);
    compare_rows(report, &SCANNED_NONE, &SCANS_OF_NONE);
    compare_elements(report);
}
