//! Permutations, viota and vid ("V" Vector Extension 1.0, chapter 16, sections 15.8 and 15.9). `a` is vs2, which has 65
//! elements, and `b` is vs1.
ghost use Rattle.std.specs.Prelude.{◌*◌, ◌<◌, ◌≤◌, length};
ghost use Rattle.rv_model.specs.vector.Groups.{width_bytes};

use crate::comparison::{Case, Kernel, MASKED, Sweep, Written, compare_kernels, is_active};
use crate::numbers::{bit_at, unsigned};
use crate::operands::Inputs;
use crate::report::Report;
use crate::variants::Variants;
use lane_arith::{Lane, write_results};
use lane_permute::{Gather, GatherOne, SlideDown, SlideOneDown, SlideOneUp, SlideUp, compress};
use mask_unit::{Index, Iota, counts_below};
use std::marker::PhantomData;

/// A slide by an offset.
pub(crate) enum Slide {
    Up,
    Down,
}

/// A slide by one element, with a scalar.
pub(crate) enum SlideOne {
    Up,
    Down,
}

/// A gather by one index, by indices of the width of an element or of 16 bits, or a compression of selected elements.
#[derive(Drop)]
pub(crate) enum Gathering {
    One,
    Indices,
    ShortIndices,
    Packed,
}

/// Elements that count the set bits below them (viota), or the elements below them (vid).
pub(crate) enum Counting {
    Bits,
    Elements,
}

/// Each offset; elements below it are unchanged.
const FROM_AMOUNT: Sweep = Sweep {
    written: Written::ElementsFromAmount,
    ..BY_AMOUNT
};

/// Each offset or index.
const BY_AMOUNT: Sweep = Sweep {
    variants: Variants::Amounts,
    ..MASKED
};

const BY_ONE: [(SlideOne, &str); 2] = [
    (SlideOne::Up, "vslide1up"),
    (SlideOne::Down, "vslide1down"),
];

/// Slides by one element, with a scalar.
const WITH_SCALAR: Sweep = Sweep {
    variants: Variants::Scalar,
    ..MASKED
};

/// Gathers by indices of the width of an element; most indices are small.
const BY_INDICES: [(&str, Sweep); 4] = [
    (
        "vrgather.vv of 8 bits",
        Sweep {
            inputs: Inputs::Indices(1),
            greatest: 8,
            ..MASKED
        },
    ),
    (
        "vrgather.vv of 16 bits",
        Sweep {
            inputs: Inputs::Indices(2),
            least: 16,
            greatest: 16,
            ..MASKED
        },
    ),
    (
        "vrgather.vv of 32 bits",
        Sweep {
            inputs: Inputs::Indices(4),
            least: 32,
            greatest: 32,
            ..MASKED
        },
    ),
    (
        "vrgather.vv of 64 bits",
        Sweep {
            inputs: Inputs::Indices(8),
            least: 64,
            ..MASKED
        },
    ),
];

/// Gathers by indices of 16 bits, at each width.
const BY_SHORT_INDICES: Sweep = Sweep {
    inputs: Inputs::Indices(2),
    ..MASKED
};

/// Compressions with three masks of selected elements, without another mask, from element 0 on.
const PACKED: Sweep = Sweep {
    maskings: 1,
    variants: Variants::Operands,
    starts: 1,
    ..MASKED
};

/// Counts of set bits in four masks.
const BY_BITS: Sweep = Sweep {
    variants: Variants::Scanned,
    ..MASKED
};

/// The element of vs2 at an index, and 0 from the limit on.
fn element_or_zero(case: &Case<'_>, index: u128) -> i128 {
    if index < case.limit as u128 {
        unsigned(&case.operands.a, case.bits, index as usize)
    } else {
        0
    }
}

impl Kernel for Slide {
    fn write<N: Lane, W: Lane>(&self, case: &Case<'_>, destination: &mut [u8]) -> bool {
        let (a, body, fill) = (&case.operands.a, case.body, case.fill);
        let (limit, offset) = (case.limit, case.variant.amount);
        match *self {
            Slide::Up => {
                let slide = SlideUp { a, offset };
                write_results::<N, SlideUp<'_>>(&slide, &slide.body(body), destination, fill);
            }
            Slide::Down => {
                let slide = SlideDown { a, limit, offset };
                write_results::<N, SlideDown<'_>>(&slide, body, destination, fill);
            }
        }
        false
    }

    fn number(&self, case: &Case<'_>, index: usize) -> i128 {
        let amount = case.variant.amount;
        match *self {
            Slide::Up => {
                let from = index.wrapping_sub(amount as usize);
                unsigned(&case.operands.a, case.bits, from)
            }
            Slide::Down => {
                element_or_zero(case, (index as u128).wrapping_add(u128::from(amount)))
            }
        }
    }
}

impl Kernel for SlideOne {
    /// The variant is the scalar.
    fn write<N: Lane, W: Lane>(&self, case: &Case<'_>, destination: &mut [u8]) -> bool {
        let (a, body, fill) = (&case.operands.a, case.body, case.fill);
        let scalar = N::low_bits(case.variant.amount);
        match *self {
            SlideOne::Up => {
                let slide = SlideOneUp { a, first: scalar };
                write_results::<N, SlideOneUp<'_, N>>(&slide, body, destination, fill);
            }
            SlideOne::Down => {
                let (end, last) = (body.end(), scalar);
                let slide = SlideOneDown { a, end, last };
                write_results::<N, SlideOneDown<'_, N>>(&slide, body, destination, fill);
            }
        }
        false
    }

    fn number(&self, case: &Case<'_>, index: usize) -> i128 {
        let (ends, from) = match *self {
            SlideOne::Up => (index == 0, index.wrapping_sub(1)),
            SlideOne::Down => {
                let from = index.wrapping_add(1);
                (from == case.body.end(), from)
            }
        };
        if ends {
            i128::from(case.variant.amount)
        } else {
            unsigned(&case.operands.a, case.bits, from)
        }
    }
}

/// Calls a gather of elements of one width by indices of another.
fn gather<I: Lane, L: Lane>(case: &Case<'_>, destination: &mut [u8])
    requires elements { width_bytes L.width * 65 ≤ 520 }
    requires room { width_bytes L.width * case.now.body.now.end ≤ length destination.old }
    requires indices { width_bytes I.width * 65 ≤ 520 }
    requires count { case.now.body.now.end ≤ 65 }
    requires source { case.now.limit ≤ 65 }
{
    let kernel = Gather::<'_, I> {
        a: &case.operands.a,
        limit: case.limit,
        indices: &case.operands.b,
        index: PhantomData,
    };
    write_results::<L, Gather<'_, I>>(&kernel, case.body, destination, case.fill);
}

/// The element at index `place` among those whose bit is set; past the last of them, the element of the destination.
fn packed(case: &Case<'_>, place: usize) -> i128 {
    let mut left = place;
    for from in 0..case.body.end() {
        if bit_at(&case.variant.bits, from) {
            if left == 0 {
                return unsigned(&case.operands.a, case.bits, from);
            }
            left = left.wrapping_sub(1);
        }
    }
    unsigned(&case.operands.d, case.bits, place)
}

impl Kernel for Gathering {
    fn write<N: Lane, W: Lane>(&self, case: &Case<'_>, destination: &mut [u8]) -> bool {
        match *self {
            Gathering::One => {
                let kernel = GatherOne {
                    a: &case.operands.a,
                    limit: case.limit,
                    index: case.variant.amount,
                };
                write_results::<N, GatherOne<'_>>(&kernel, case.body, destination, case.fill);
            }
            Gathering::Indices => gather::<N, N>(case, destination),
            Gathering::ShortIndices => gather::<u16, N>(case, destination),
            Gathering::Packed => {
                let (select, end) = (&case.variant.bits, case.body.end());
                compress::<N>(&case.operands.a, select, end, destination);
            }
        }
        false
    }

    fn number(&self, case: &Case<'_>, index: usize) -> i128 {
        let b = &case.operands.b;
        match *self {
            Gathering::One => element_or_zero(case, u128::from(case.variant.amount)),
            Gathering::Indices => {
                element_or_zero(case, unsigned(b, case.bits, index).cast_unsigned())
            }
            Gathering::ShortIndices => {
                element_or_zero(case, unsigned(b, 16, index).cast_unsigned())
            }
            Gathering::Packed => packed(case, index),
        }
    }
}

impl Kernel for Counting {
    /// The variant is the bits of vs2.
    fn write<N: Lane, W: Lane>(&self, case: &Case<'_>, destination: &mut [u8]) -> bool {
        match *self {
            Counting::Bits => {
                let mut counts = [0; 256];
                counts_below(case.body, &case.variant.bits, &mut counts);
                let kernel = Iota { counts: &counts };
                write_results::<N, Iota<'_>>(&kernel, case.body, destination, case.fill);
            }
            Counting::Elements => {
                write_results::<N, Index>(&Index, case.body, destination, case.fill);
            }
        }
        false
    }

    fn number(&self, case: &Case<'_>, index: usize) -> i128 {
        let is_index = matches!(*self, Counting::Elements);
        let mut found: i128 = 0;
        for below in 0..index {
            let is_set = is_active(case.body, below) && bit_at(&case.variant.bits, below);
            found = found.wrapping_add(i128::from(is_index || is_set));
        }
        found
    }
}

/// Compares slides.
fn compare_slides(report: &mut Report) {
    compare_kernels(report, &[(Slide::Up, "vslideup")], &FROM_AMOUNT);
    compare_kernels(report, &[(Slide::Down, "vslidedown")], &BY_AMOUNT);
    compare_kernels(report, &BY_ONE, &WITH_SCALAR);
}

/// Compares gathers by indices of the width of an element.
fn compare_by_indices(report: &mut Report) {
    for (name, sweep) in BY_INDICES.iter() {
        compare_kernels(report, &[(Gathering::Indices, *name)], sweep);
    }
}

/// Compares gathers.
fn compare_gathers(report: &mut Report) {
    compare_kernels(report, &[(Gathering::One, "vrgather.vx")], &BY_AMOUNT);
    compare_by_indices(report);
    compare_kernels(
        report,
        &[(Gathering::ShortIndices, "vrgatherei16")],
        &BY_SHORT_INDICES,
    );
    compare_kernels(report, &[(Gathering::Packed, "vcompress")], &PACKED);
}

/// Compares permutations, viota and vid.
pub(crate) fn compare(report: &mut Report) {
    compare_slides(report);
    compare_gathers(report);
    compare_kernels(report, &[(Counting::Bits, "viota")], &BY_BITS);
    compare_kernels(report, &[(Counting::Elements, "vid")], &MASKED);
}
