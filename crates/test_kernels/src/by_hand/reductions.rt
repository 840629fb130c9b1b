//! Reductions, which start with the first element of `b`.
use crate::by_hand::{GIVEN, Given, Row, compare_rows};
use crate::report::Report;
use rv_model::instructions::operations::{ReduceOp, WidenReduceOp};

const BYTES: Given = Given {
    a: 0x7f01_ff81,
    b: 7,
    end: 3,
    ..GIVEN
};

const REDUCTIONS: [Row<ReduceOp>; 8] = [
    (ReduceOp::Vredsum, "vredsum", 0, 0x88),
    (ReduceOp::Vredand, "vredand", 0, 1),
    (ReduceOp::Vredor, "vredor", 0, 0xff),
    (ReduceOp::Vredxor, "vredxor", 0, 0x78),
    (ReduceOp::Vredminu, "vredminu", 0, 1),
    (ReduceOp::Vredmin, "vredmin", 0, 0x81),
    (ReduceOp::Vredmaxu, "vredmaxu", 0, 0xff),
    (ReduceOp::Vredmax, "vredmax", 0, 7),
];

/// Powers of two, some of them active, and 0x100 as the start value.
const ACTIVE: Given = Given {
    bits: 16,
    a: 0x0010_0008_0004_0002_0001,
    b: 0x0100,
    mask: Some(0b1011),
    start: 1,
    end: 4,
    size: 2,
    ..GIVEN
};

const EMPTY: Given = Given {
    mask: None,
    start: 0,
    end: 0,
    ..ACTIVE
};

const SUM_OF_ACTIVE: [Row<ReduceOp>; 1] = [(
    ReduceOp::Vredsum,
    "vredsum of active elements",
    0,
    0x010a,
)];

const SUM_OF_NONE: [Row<ReduceOp>; 1] = [(ReduceOp::Vredsum, "vredsum of no elements", 0, 0x0100)];

const WIDENED: Given = Given {
    times: 2,
    a: 0x01_80ff,
    b: 0x0001,
    end: 3,
    size: 2,
    ..GIVEN
};

/// Sums of twice the width.
const WIDENING: [Row<WidenReduceOp>; 2] = [
    (WidenReduceOp::Vwredsumu, "vwredsumu", 0, 0x0181),
    (WidenReduceOp::Vwredsum, "vwredsum", 0, 0xff81),
];

/// Compares all tables of reductions.
pub(crate) fn compare(report: &mut Report) {
    compare_rows(report, &BYTES, &REDUCTIONS);
    compare_sums(report);
    compare_rows(report, &WIDENED, &WIDENING);
}

/// Compares sums of some elements, and of none.
fn compare_sums(report: &mut Report) {
    compare_rows(report, &ACTIVE, &SUM_OF_ACTIVE);
    compare_rows(report, &EMPTY, &SUM_OF_NONE);
}
