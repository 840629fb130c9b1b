//! Operations of one width.
use crate::by_hand::{GIVEN, Given, Row, compare_rows};
use crate::one_width::Copied;
use crate::report::Report;
use rv_model::instructions::operations::{BinaryOp, CarryOp, CarryOutOp, CompareOp, MultiplyAddOp};

/// Numbers of 32 bits whose sums wrap around, and an element after the body.
const WORDS: Given = Given {
    bits: 32,
    a: 0x0000_0007_8000_0000_0000_0002_ffff_ffff,
    b: 0x0000_0001_0000_0001_0000_0001_0000_0001,
    end: 3,
    size: 16,
    ..GIVEN
};

const SUMS_OF_WORDS: [Row<BinaryOp>; 1] = [(
    BinaryOp::Vadd,
    "vadd of 32 bits",
    0,
    0xaaaa_aaaa_8000_0001_0000_0003_0000_0000,
)];

const BYTES: Given = Given {
    a: 0x4002_8180,
    b: 0xc903_00ff,
    end: 4,
    size: 4,
    ..GIVEN
};

/// Operations on bytes.
const BINARY: [Row<BinaryOp>; 21] = [
    (BinaryOp::Vadd, "vadd", 0, 0x0905_817f),
    (BinaryOp::Vsub, "vsub", 0, 0x77ff_8181),
    (BinaryOp::Vrsub, "vrsub", 0, 0x8901_7f7f),
    (BinaryOp::Vminu, "vminu", 0, 0x4002_0080),
    (BinaryOp::Vmin, "vmin", 0, 0xc902_8180),
    (BinaryOp::Vmaxu, "vmaxu", 0, 0xc903_81ff),
    (BinaryOp::Vmax, "vmax", 0, 0x4003_00ff),
    (BinaryOp::Vand, "vand", 0, 0x4002_0080),
    (BinaryOp::Vor, "vor", 0, 0xc903_81ff),
    (BinaryOp::Vxor, "vxor", 0, 0x8901_817f),
    (BinaryOp::Vsll, "vsll", 0, 0x8010_8100),
    (BinaryOp::Vsrl, "vsrl", 0, 0x2000_8101),
    (BinaryOp::Vsra, "vsra", 0, 0x2000_81ff),
    (BinaryOp::Vdivu, "vdivu", 0, 0x0000_ff00),
    (BinaryOp::Vdiv, "vdiv", 0, 0xff00_ff80),
    (BinaryOp::Vremu, "vremu", 0, 0x4002_8180),
    (BinaryOp::Vrem, "vrem", 0, 0x0902_8100),
    (BinaryOp::Vmulhu, "vmulhu", 0, 0x3200_007f),
    (BinaryOp::Vmul, "vmul", 0, 0x4006_0080),
    (BinaryOp::Vmulhsu, "vmulhsu", 0, 0x3200_0080),
    (BinaryOp::Vmulh, "vmulh", 0, 0xf200_0000),
];

/// The least number of 64 bits and -1.
const DOUBLES: Given = Given {
    bits: 64,
    a: 0x8000_0000_0000_0000,
    b: 0xffff_ffff_ffff_ffff,
    size: 8,
    ..GIVEN
};

/// The same, multiplied and divided.
const WIDEST: [Row<BinaryOp>; 6] = [
    (BinaryOp::Vmulh, "vmulh of 64 bits", 0, 0),
    (
        BinaryOp::Vmulhsu,
        "vmulhsu of 64 bits",
        0,
        0x8000_0000_0000_0000,
    ),
    (
        BinaryOp::Vmulhu,
        "vmulhu of 64 bits",
        0,
        0x7fff_ffff_ffff_ffff,
    ),
    (BinaryOp::Vmul, "vmul of 64 bits", 0, 0x8000_0000_0000_0000),
    (BinaryOp::Vdiv, "vdiv of 64 bits", 0, 0x8000_0000_0000_0000),
    (BinaryOp::Vrem, "vrem of 64 bits", 0, 0),
];

const ADDED: Given = Given {
    bits: 16,
    a: 0x0003,
    b: 0x0005,
    d: 0xaaaa_aaaa_aaaa_aaaa_aaaa_aaaa_aaaa_0001,
    size: 2,
    ..GIVEN
};

const MULTIPLY_ADDS: [Row<MultiplyAddOp>; 4] = [
    (MultiplyAddOp::Vmadd, "vmadd", 0, 0x0008),
    (MultiplyAddOp::Vnmsub, "vnmsub", 0, 0xfffe),
    (MultiplyAddOp::Vmacc, "vmacc", 0, 0x0010),
    (MultiplyAddOp::Vnmsac, "vnmsac", 0, 0xfff2),
];

/// Elements from index 3 on; element 4 is masked off.
const MASKED: Given = Given {
    b: 0x0101_0101_0101_0101,
    d: 0xaaaa_aaaa_aaaa_aaaa_0000_0000_0000_0000,
    mask: Some(0xef),
    start: 3,
    end: 8,
    size: 8,
    ..GIVEN
};

const FILLED: Given = Given {
    fill: true,
    ..MASKED
};

const UNDISTURBED: [Row<BinaryOp>; 1] = [(
    BinaryOp::Vadd,
    "vadd, masked-off elements kept",
    0,
    0x0101_0100_0100_0000,
)];

const ONES: [Row<BinaryOp>; 1] = [(
    BinaryOp::Vadd,
    "vadd, masked-off elements filled",
    0,
    0x0101_01ff_0100_0000,
)];

const WITH_CARRIES: Given = Given {
    a: 0x0001_ff80,
    b: 0x0002_017f,
    bits_a: 0b0110,
    end: 3,
    size: 4,
    ..GIVEN
};

const CARRIES: [Row<CarryOp>; 3] = [
    (CarryOp::Vadc, "vadc", 0, 0xaa04_01ff),
    (CarryOp::Vsbc, "vsbc", 0, 0xaafe_fd01),
    (CarryOp::Vmerge, "vmerge", 0, 0xaa02_0180),
];

const COMPARED: Given = Given {
    a: 0x00_0202_0000_ff7f_8001,
    b: 0xff_0101_09ff_0080_7f01,
    d: 0xaaaa_aaaa_aaaa_aaaa_aaaa_aaaa_aaaa_fea0,
    mask: Some(0b1_0101_1111),
    end: 9,
    size: 2,
    ..GIVEN
};

/// Comparisons, which write only active bits.
const COMPARISONS: [Row<CompareOp>; 8] = [
    (CompareOp::Vmseq, "vmseq", 0, 0b1111_1110_1010_0001),
    (CompareOp::Vmsne, "vmsne", 0, 0b1111_1111_1111_1110),
    (CompareOp::Vmsltu, "vmsltu", 0, 0b1111_1111_1011_0100),
    (CompareOp::Vmslt, "vmslt", 0, 0b1111_1110_1010_1010),
    (CompareOp::Vmsleu, "vmsleu", 0, 0b1111_1111_1011_0101),
    (CompareOp::Vmsle, "vmsle", 0, 0b1111_1110_1010_1011),
    (CompareOp::Vmsgtu, "vmsgtu", 0, 0b1111_1110_1110_1010),
    (CompareOp::Vmsgt, "vmsgt", 0, 0b1111_1111_1111_0100),
];

/// Carries and borrows. With amount 1, v0 isn't an operand.
const CARRYING: Given = Given {
    a: 0xff03_8000,
    b: 0x0203_7f01,
    d: 0xaaaa_aaaa_aaaa_aaaa_aaaa_aaaa_aaaa_aa04,
    bits_a: 0b0110,
    end: 4,
    ..GIVEN
};

const CARRIES_OUT: [Row<CarryOutOp>; 4] = [
    (CarryOutOp::Vmadc, "vmadc", 1, 0b1000),
    (CarryOutOp::Vmadc, "vmadc with v0", 0, 0b1010),
    (CarryOutOp::Vmsbc, "vmsbc", 1, 0b0001),
    (CarryOutOp::Vmsbc, "vmsbc with v0", 0, 0b0101),
];

/// Elements of 16 bits; elements 1 and 2 are copied.
const COPIED: Given = Given {
    bits: 16,
    b: 0x0807_0605_0403_0201,
    start: 1,
    end: 3,
    size: 8,
    ..GIVEN
};

const COPIES: [Row<Copied>; 1] = [(Copied::Elements, "vmv.v.v", 0, 0xaaaa_0605_0403_aaaa)];

/// One number of 64 bits at index 1.
const ONE_NUMBER: Given = Given {
    bits: 64,
    d: 0,
    start: 1,
    end: 2,
    size: 16,
    ..GIVEN
};

const NUMBERS: [Row<Copied>; 1] = [(
    Copied::Number,
    "one number in a range",
    0x0102,
    0x0000_0000_0000_0102_0000_0000_0000_0000,
)];

/// Compares operations on two numbers.
fn compare_binary(report: &mut Report) {
    compare_rows(report, &WORDS, &SUMS_OF_WORDS);
    compare_rows(report, &BYTES, &BINARY);
    compare_rows(report, &DOUBLES, &WIDEST);
}

/// Compares multiply-adds, and sums with a mask.
fn compare_sums(report: &mut Report) {
    compare_rows(report, &ADDED, &MULTIPLY_ADDS);
    compare_rows(report, &MASKED, &UNDISTURBED);
    compare_rows(report, &FILLED, &ONES);
}

/// Compares operations with masks as operands or results.
fn compare_with_bits(report: &mut Report) {
    compare_rows(report, &WITH_CARRIES, &CARRIES);
    compare_rows(report, &COMPARED, &COMPARISONS);
    compare_rows(report, &CARRYING, &CARRIES_OUT);
}

/// Compares all tables of operations of one width.
pub(crate) fn compare(report: &mut Report) {
    compare_binary(report);
    compare_sums(report);
    compare_with_bits(report);
    compare_rows(report, &COPIED, &COPIES);
    compare_rows(report, &ONE_NUMBER, &NUMBERS);
}
