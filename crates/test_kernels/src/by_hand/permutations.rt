//! Permutations.
use crate::by_hand::{GIVEN, Given, Row, compare_rows};
use crate::permutations::{Gathering, Slide, SlideOne};
use crate::report::Report;

const UP: Given = Given {
    a: 0x281e_140a,
    mask: Some(0x0b),
    end: 4,
    fill: true,
    size: 4,
    ..GIVEN
};

/// Slides up, which write the elements from the offset on.
const SLIDES_UP: [Row<Slide>; 5] = [
    (Slide::Up, "vslideup by 0", 0, 0x28ff_140a),
    (Slide::Up, "vslideup by 1", 1, 0x1eff_0aaa),
    (Slide::Up, "vslideup by 3", 3, 0x0aaa_aaaa),
    (Slide::Up, "vslideup by the length", 4, 0xaaaa_aaaa),
    (Slide::Up, "vslideup by the most", u64::MAX, 0xaaaa_aaaa),
];

const DOWN: Given = Given {
    bits: 16,
    a: 0x3205_2804_1e03_1402_0a01,
    limit: 4,
    end: 3,
    size: 8,
    ..GIVEN
};

/// Slides down, which read 0 from the limit on.
const SLIDES_DOWN: [Row<Slide>; 5] = [
    (Slide::Down, "vslidedown by 0", 0, 0xaaaa_1e03_1402_0a01),
    (Slide::Down, "vslidedown by 1", 1, 0xaaaa_2804_1e03_1402),
    (Slide::Down, "vslidedown by 3", 3, 0xaaaa_0000_0000_2804),
    (
        Slide::Down,
        "vslidedown by the limit",
        4,
        0xaaaa_0000_0000_0000,
    ),
    (
        Slide::Down,
        "vslidedown by the most",
        u64::MAX,
        0xaaaa_0000_0000_0000,
    ),
];

const ONE: Given = Given {
    bits: 16,
    a: 0x1e03_1402_0a01,
    limit: 2,
    end: 2,
    size: 4,
    ..GIVEN
};

const GATHERS_OF_ONE: [Row<Gathering>; 4] = [
    (Gathering::One, "vrgather.vx of index 1", 1, 0x1402_1402),
    (Gathering::One, "vrgather.vx of the limit", 2, 0),
    (Gathering::One, "vrgather.vx of 2 to 16", 1 << 16, 0),
    (Gathering::One, "vrgather.vx of the most", u64::MAX, 0),
];

const UP_BY_ONE: Given = Given {
    bits: 16,
    a: 0x2804_1e03_1402_0a01,
    end: 3,
    size: 8,
    ..GIVEN
};

const DOWN_BY_ONE: Given = Given {
    start: 1,
    ..UP_BY_ONE
};

const SLIDES_UP_BY_ONE: [Row<SlideOne>; 1] = [(
    SlideOne::Up,
    "vslide1up",
    0x6009,
    0xaaaa_1402_0a01_6009,
)];

const SLIDES_DOWN_BY_ONE: [Row<SlideOne>; 1] = [(
    SlideOne::Down,
    "vslide1down",
    0x6009,
    0xaaaa_6009_1e03_aaaa,
)];

/// Bytes by indices of 16 bits.
const INDICES: Given = Given {
    a: 0x32_281e_140a,
    b: 0x0001_0100_0004_0001_0003,
    limit: 4,
    end: 5,
    size: 6,
    ..GIVEN
};

const GATHERS: [Row<Gathering>; 1] = [(
    Gathering::ShortIndices,
    "vrgatherei16",
    0,
    0xaa14_0000_1428,
)];

/// Five elements of 16 bits, some of them selected.
const SELECTED: Given = Given {
    bits: 16,
    a: 0x3c06_3205_2804_1e03_1402_0a01,
    bits_a: 0x36,
    end: 5,
    size: 12,
    ..GIVEN
};

const SELECTED_NONE: Given = Given {
    d: 0xaaaa_aaaa_aaaa_aaaa_aaaa_3205_1e03_1402,
    bits_a: 0,
    ..SELECTED
};

const PACKS: [Row<Gathering>; 1] = [(
    Gathering::Packed,
    "vcompress",
    0,
    0xaaaa_aaaa_aaaa_3205_1e03_1402,
)];

const PACKS_OF_NONE: [Row<Gathering>; 1] = [(
    Gathering::Packed,
    "vcompress of no elements",
    0,
    0xaaaa_aaaa_aaaa_3205_1e03_1402,
)];

/// Compares slides and gathers by one number.
fn compare_by_one(report: &mut Report) {
    compare_rows(report, &UP, &SLIDES_UP);
    compare_rows(report, &DOWN, &SLIDES_DOWN);
    compare_rows(report, &ONE, &GATHERS_OF_ONE);
}

/// Compares slides by one element.
fn compare_slides_by_one(report: &mut Report) {
    compare_rows(report, &UP_BY_ONE, &SLIDES_UP_BY_ONE);
    compare_rows(report, &DOWN_BY_ONE, &SLIDES_DOWN_BY_ONE);
}

/// Compares all tables of permutations.
pub(crate) fn compare(report: &mut Report) {
    compare_by_one(report);
    compare_slides_by_one(report);
    compare_rows(report, &INDICES, &GATHERS);
    compare_rows(report, &SELECTED, &PACKS);
    compare_rows(report, &SELECTED_NONE, &PACKS_OF_NONE);
}
