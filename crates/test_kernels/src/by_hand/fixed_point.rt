//! Fixed-point operations. The rounding modes have their numbers in vxrm: 0 is round-to-nearest-up, 1
//! round-to-nearest-even, 2 round-down, and 3 round-to-odd.
use crate::by_hand::{GIVEN, Given, Row, compare_rows};
use crate::report::Report;
use rv_model::instructions::operations::{ClipOp, FixedPointOp};

const QUARTERS: Given = Given {
    a: 0xfcfb_fafe_0302_0605,
    b: 0xfa02_0202_0a02_0202,
    end: 8,
    size: 8,
    ..GIVEN
};

/// Quarters of signed bytes, in each rounding mode.
const SHIFTS: [Row<FixedPointOp>; 4] = [
    (
        FixedPointOp::Vssra,
        "vssra to the nearest, up",
        0,
        0xffff_ff00_0101_0201,
    ),
    (
        FixedPointOp::Vssra,
        "vssra to the nearest, even",
        1,
        0xffff_fe00_0100_0201,
    ),
    (FixedPointOp::Vssra, "vssra down", 2, 0xfffe_feff_0000_0101),
    (
        FixedPointOp::Vssra,
        "vssra to odd",
        3,
        0xffff_ffff_0101_0101,
    ),
];

const BYTES: Given = Given {
    a: 0x7f_0181_7f80,
    b: 0x80_0402_0180,
    end: 5,
    size: 5,
    ..GIVEN
};

const SATURATING_BYTES: Given = Given {
    saturates: true,
    ..BYTES
};

const SATURATED: [Row<FixedPointOp>; 5] = [
    (FixedPointOp::Vsaddu, "vsaddu", 0, 0xff_0583_80ff),
    (FixedPointOp::Vsadd, "vsadd", 0, 0xff_0583_7f80),
    (FixedPointOp::Vssubu, "vssubu", 0, 0x00_007f_7e00),
    (FixedPointOp::Vssub, "vssub", 0, 0x7f_fd80_7e00),
    (FixedPointOp::Vsmul, "vsmul", 0, 0x81_00fe_017f),
];

const ROUNDED: [Row<FixedPointOp>; 6] = [
    (FixedPointOp::Vssrl, "vssrl", 0, 0x7f_0020_4080),
    (FixedPointOp::Vssra, "vssra", 0, 0x7f_00e0_4080),
    (FixedPointOp::Vaaddu, "vaaddu", 0, 0x80_0342_4080),
    (FixedPointOp::Vaadd, "vaadd", 0, 0x00_03c2_4080),
    (FixedPointOp::Vasubu, "vasubu", 0, 0x00_ff40_3f00),
    (FixedPointOp::Vasub, "vasub", 0, 0x80_ffc0_3f00),
];

/// The least number of 64 bits as both operands, rounded down.
const DOUBLES: Given = Given {
    bits: 64,
    a: 0x8000_0000_0000_0000,
    b: 0x8000_0000_0000_0000,
    size: 8,
    ..GIVEN
};

const SATURATING_DOUBLES: Given = Given {
    saturates: true,
    ..DOUBLES
};

const WIDEST_SATURATED: [Row<FixedPointOp>; 3] = [
    (
        FixedPointOp::Vsaddu,
        "vsaddu of 64 bits",
        2,
        0xffff_ffff_ffff_ffff,
    ),
    (
        FixedPointOp::Vsadd,
        "vsadd of 64 bits",
        2,
        0x8000_0000_0000_0000,
    ),
    (
        FixedPointOp::Vsmul,
        "vsmul of 64 bits",
        2,
        0x7fff_ffff_ffff_ffff,
    ),
];

const WIDEST: [Row<FixedPointOp>; 1] = [(
    FixedPointOp::Vaaddu,
    "vaaddu of 64 bits",
    2,
    0x8000_0000_0000_0000,
)];

/// Elements 1 and 2. Element 1, whose product would saturate, is masked off.
const ACTIVE: Given = Given {
    a: 0x8040_8080,
    b: 0x8040_8080,
    mask: Some(0b1101),
    start: 1,
    end: 3,
    fill: true,
    size: 4,
    ..GIVEN
};

const PRODUCTS: [Row<FixedPointOp>; 1] = [(
    FixedPointOp::Vsmul,
    "vsmul of active elements",
    0,
    0xaa20_ffaa,
)];

const CLIPPED: Given = Given {
    a: 0xfe00_ffff_8000_0180,
    b: 0x0004_1c01,
    end: 4,
    saturates: true,
    size: 4,
    ..GIVEN
};

const TWO_CLIPPED: Given = Given {
    end: 2,
    saturates: false,
    ..CLIPPED
};

const UNSIGNED_CLIPS: [Row<ClipOp>; 1] = [(ClipOp::Vnclipu, "vnclipu", 0, 0xffff_08c0)];

const TWO_CLIPS: [Row<ClipOp>; 1] = [(ClipOp::Vnclipu, "vnclipu of two elements", 0, 0xaaaa_08c0)];

const SIGNED_CLIPS: [Row<ClipOp>; 1] = [(ClipOp::Vnclip, "vnclip", 0, 0x8000_f87f)];

/// Compares operations on bytes.
fn compare_bytes(report: &mut Report) {
    compare_rows(report, &QUARTERS, &SHIFTS);
    compare_rows(report, &SATURATING_BYTES, &SATURATED);
    compare_rows(report, &BYTES, &ROUNDED);
}

/// Compares clips.
fn compare_clips(report: &mut Report) {
    compare_rows(report, &CLIPPED, &UNSIGNED_CLIPS);
    compare_rows(report, &TWO_CLIPPED, &TWO_CLIPS);
    compare_rows(report, &CLIPPED, &SIGNED_CLIPS);
}

/// Compares all tables of fixed-point operations.
pub(crate) fn compare(report: &mut Report) {
    compare_bytes(report);
    compare_rows(report, &SATURATING_DOUBLES, &WIDEST_SATURATED);
    compare_rows(report, &DOUBLES, &WIDEST);
    compare_rows(report, &ACTIVE, &PRODUCTS);
    compare_clips(report);
}
