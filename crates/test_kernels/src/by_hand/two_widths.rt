//! Operations of two widths.
use crate::by_hand::{GIVEN, Given, Row, compare_rows};
use crate::report::Report;
use rv_model::instructions::operations::{
    ExtendOp, NarrowShiftOp, WideSourceOp, WidenMultiplyAddOp, WidenOp,
};

const WIDENED: Given = Given {
    times: 2,
    a: 0x8000,
    b: 0xff00,
    start: 1,
    end: 2,
    size: 4,
    ..GIVEN
};

/// Results of twice the width.
const WIDENING: [Row<WidenOp>; 7] = [
    (WidenOp::Vwaddu, "vwaddu.vv", 0, 0x017f_aaaa),
    (WidenOp::Vwadd, "vwadd.vv", 0, 0xff7f_aaaa),
    (WidenOp::Vwsubu, "vwsubu.vv", 0, 0xff81_aaaa),
    (WidenOp::Vwsub, "vwsub.vv", 0, 0xff81_aaaa),
    (WidenOp::Vwmulu, "vwmulu", 0, 0x7f80_aaaa),
    (WidenOp::Vwmulsu, "vwmulsu", 0, 0x8080_aaaa),
    (WidenOp::Vwmul, "vwmul", 0, 0x0080_aaaa),
];

const OF_WIDE_SOURCE: Given = Given {
    times: 2,
    a: 0x8001,
    b: 0xff,
    size: 2,
    ..GIVEN
};

/// A first source of twice the width.
const WIDE_SOURCES: [Row<WideSourceOp>; 4] = [
    (WideSourceOp::Vwaddu, "vwaddu.wv", 0, 0x8100),
    (WideSourceOp::Vwadd, "vwadd.wv", 0, 0x8000),
    (WideSourceOp::Vwsubu, "vwsubu.wv", 0, 0x7f02),
    (WideSourceOp::Vwsub, "vwsub.wv", 0, 0x8002),
];

const ADDED: Given = Given {
    times: 2,
    a: 0x80,
    b: 0xff,
    d: 0xaaaa_aaaa_aaaa_aaaa_aaaa_aaaa_aaaa_0102,
    size: 2,
    ..GIVEN
};

const MULTIPLY_ADDS: [Row<WidenMultiplyAddOp>; 4] = [
    (WidenMultiplyAddOp::Vwmaccu, "vwmaccu", 0, 0x8082),
    (WidenMultiplyAddOp::Vwmacc, "vwmacc", 0, 0x0182),
    (WidenMultiplyAddOp::Vwmaccus, "vwmaccus", 0, 0x8182),
    (WidenMultiplyAddOp::Vwmaccsu, "vwmaccsu", 0, 0x0082),
];

const NARROWED: Given = Given {
    a: 0x8001,
    b: 0x1c,
    ..GIVEN
};

/// Shifts to half the width.
const NARROW_SHIFTS: [Row<NarrowShiftOp>; 2] = [
    (NarrowShiftOp::Vnsrl, "vnsrl", 0, 8),
    (NarrowShiftOp::Vnsra, "vnsra", 0, 0xf8),
];

const EXTENDED: Given = Given {
    times: 4,
    a: 0x80,
    size: 4,
    ..GIVEN
};

/// Extensions of 8 bits to 32. The widths come from `EXTENDED`, not from the operation's name.
const EXTENSIONS: [Row<ExtendOp>; 4] = [
    (ExtendOp::VzextVf4, "vzext.vf4", 0, 0x0000_0080),
    (ExtendOp::VsextVf4, "vsext.vf4", 0, 0xffff_ff80),
    (ExtendOp::VzextVf2, "vzext.vf2", 0, 0x0000_0080),
    (ExtendOp::VsextVf8, "vsext.vf8", 0, 0xffff_ff80),
];

/// Compares results of twice the width.
fn compare_widening(report: &mut Report) {
    compare_rows(report, &WIDENED, &WIDENING);
    compare_rows(report, &OF_WIDE_SOURCE, &WIDE_SOURCES);
    compare_rows(report, &ADDED, &MULTIPLY_ADDS);
}

/// Compares all tables of operations of two widths.
pub(crate) fn compare(report: &mut Report) {
    compare_widening(report);
    compare_rows(report, &NARROWED, &NARROW_SHIFTS);
    compare_rows(report, &EXTENDED, &EXTENSIONS);
}
