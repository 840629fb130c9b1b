//! Compares a kernel with a plain loop: at each width, with masks, and for each start and end.
//!
//! To add a family of kernels, write an `impl Kernel`, a table of names, and a `Sweep` of the cases.
ghost use Rattle.std.specs.Prelude.{◌*◌, ◌≤◌, length};
ghost use Rattle.rv_model.specs.vector.Groups.{width_bytes};

use crate::numbers::{bit_at, nearest_signed, nearest_unsigned, put};
use crate::operands::{ALL, Inputs, LONGEST, MIXED, NO_MASK, Operands};
use crate::report::{Line, Report};
use crate::variants::{Variant, Variants};
use lane_arith::{Body, Lane};

/// The active elements of a body: all, or those that a mask enables; and whether inactive elements are filled with ones.
struct Masking {
    unmasked: bool,
    mask: [u8; 32],
    fill: bool,
}

/// No mask; masks with all bits set, none and some; and the last two again, with inactive elements filled.
const MASKINGS: [Masking; 6] = [
    Masking {
        unmasked: true,
        mask: NO_MASK,
        fill: false,
    },
    Masking {
        unmasked: false,
        mask: ALL,
        fill: false,
    },
    Masking {
        unmasked: false,
        mask: NO_MASK,
        fill: false,
    },
    Masking {
        unmasked: false,
        mask: MIXED,
        fill: false,
    },
    Masking {
        unmasked: false,
        mask: NO_MASK,
        fill: true,
    },
    Masking {
        unmasked: false,
        mask: MIXED,
        fill: true,
    },
];

/// Part of the destination that a kernel writes.
#[derive(Clone, Copy)]
pub(crate) enum Written {
    /// The active elements.
    Elements,
    /// The active elements from the variant's `amount` on.
    ElementsFromAmount,
    /// The active bits of a mask.
    Bits,
    /// Element 0, even if no element is active.
    First,
}

/// The result for a number that doesn't fit the width of the result.
#[derive(Clone, Copy)]
pub(crate) enum Limits {
    /// Its low bits.
    None,
    /// The nearest unsigned number; the element saturates.
    Unsigned,
    /// The nearest signed number; the element saturates.
    Signed,
}

/// Widths of an element in bits; an element of a mask has 1 bit.
const WIDTHS: [u32; 5] = [1, 8, 16, 32, 64];

/// Cases of a family of kernels. An element has from `least` to `greatest` bits, and a result `times` the width of an
/// element. `maskings` is the number of `MASKINGS` used, and `starts` the number of starts used of 0, 1, 7, 33 and the end.
#[derive(Clone, Copy)]
pub(crate) struct Sweep {
    pub(crate) inputs: Inputs,
    pub(crate) least: u32,
    pub(crate) greatest: u32,
    pub(crate) times: u32,
    pub(crate) maskings: usize,
    pub(crate) variants: Variants,
    pub(crate) starts: usize,
    pub(crate) written: Written,
    pub(crate) limits: Limits,
}

/// Operations of one width, with a result for each element.
pub(crate) const MASKED: Sweep = Sweep {
    inputs: Inputs::Any,
    least: 8,
    greatest: 64,
    times: 1,
    maskings: 6,
    variants: Variants::Plain,
    starts: 5,
    written: Written::Elements,
    limits: Limits::None,
};

/// Inputs of a kernel other than its operation. An element has `bits` bits, and a result `times` that width; `limit` is
/// the number of elements of a permutation's source.
#[derive(Clone, Copy)]
pub(crate) struct Case<'a> {
    pub(crate) operands: &'a Operands,
    pub(crate) body: &'a Body<'a>,
    pub(crate) bits: u32,
    pub(crate) times: u32,
    pub(crate) variant: &'a Variant,
    pub(crate) limit: usize,
    pub(crate) fill: bool,
}

/// A kernel that is compared with a plain loop.
pub(crate) trait Kernel {
    /// Calls the kernel at the width of `N`; `W` has twice that width, at most 64 bits. Returns whether the kernel reports
    /// saturation.
    fn write<N: Lane, W: Lane>(&self, case: &Case<'_>, destination: &mut [u8]) -> bool
        requires narrow { width_bytes N.width * 65 ≤ 520 }
        requires wide { width_bytes W.width * 65 ≤ 520 }
        requires count { case.now.body.now.end ≤ 65 }
        requires source { case.now.limit ≤ 65 }
        requires results { width_bytes N.width * case.now.body.now.end ≤ length destination.old }
        requires wide_results { width_bytes W.width * case.now.body.now.end ≤ length destination.old }
        requires least { 16 ≤ length destination.old }
        requires most { length destination.old ≤ 520 };

    /// The exact result at an index by the manual's formula, before it is reduced to its width.
    fn number(&self, case: &Case<'_>, index: usize) -> i128;
}

/// Calls a kernel at the width of its case, with the first `room` bytes of the destination, if these have room for
/// results of twice the width. With 32 bytes or more, kernels write whole chunks.
pub(crate) fn write<K: Kernel>(
    kernel: &K,
    case: &Case<'_>,
    room: usize,
    bytes: &mut [u8; LONGEST],
) -> bool
    requires count { case.now.body.now.end ≤ 65 }
    requires source { case.now.limit ≤ 65 }
    requires least { 16 ≤ room }
    requires most { room ≤ 520 }
{
    let end = case.body.end();
    let destination = &mut bytes[..room];
    match case.bits {
        8 if 2 * end <= room => kernel.write::<u8, u16>(case, destination),
        16 if 4 * end <= room => kernel.write::<u16, u32>(case, destination),
        32 if 8 * end <= room => kernel.write::<u32, u64>(case, destination),
        _ if 8 * end <= room => kernel.write::<u64, u64>(case, destination),
        _ => false,
    }
}

/// Whether the mask enables an element.
fn is_enabled(body: &Body<'_>, index: usize) -> bool {
    body.is_unmasked() || bit_at(body.mask(), index)
}

/// Whether an element is active.
pub(crate) fn is_active(body: &Body<'_>, index: usize) -> bool {
    body.start() <= index && index < body.end() && is_enabled(body, index)
}

/// Writes the result at an index. Returns whether it saturated.
fn put_result<K: Kernel>(
    kernel: &K,
    case: &Case<'_>,
    limits: Limits,
    width: u32,
    index: usize,
    destination: &mut [u8; LONGEST],
) -> bool {
    let number = kernel.number(case, index);
    let nearest = match limits {
        Limits::None => number,
        Limits::Unsigned => nearest_unsigned(number, width),
        Limits::Signed => nearest_signed(number, width),
    };
    put(destination, width, index, nearest);
    nearest != number
}

/// Writes the results of a body with a plain loop. Returns whether one saturated.
fn write_plain<K: Kernel>(
    kernel: &K,
    case: &Case<'_>,
    sweep: &Sweep,
    destination: &mut [u8; LONGEST],
) -> bool {
    let width = case.bits.wrapping_mul(case.times);
    let (first, width) = match sweep.written {
        Written::Elements => (0, width),
        Written::ElementsFromAmount => (case.variant.amount as usize, width),
        Written::Bits => (0, 1),
        Written::First => {
            return put_result(kernel, case, sweep.limits, width, 0, destination);
        }
    };
    let mut saturated = false;
    for index in case.body.start().max(first)..case.body.end() {
        if is_enabled(case.body, index) {
            saturated |= put_result(kernel, case, sweep.limits, width, index, destination);
        } else if case.fill {
            put(destination, width, index, -1);
        }
    }
    saturated
}

/// Whether a kernel writes the same bytes and reports the same saturation as the plain loop.
fn agrees<K: Kernel>(kernel: &K, case: &Case<'_>, sweep: &Sweep) -> bool
    requires count { case.now.body.now.end ≤ 65 }
    requires source { case.now.limit ≤ 65 }
{
    let mut written = case.operands.d;
    let mut plain = case.operands.d;
    let saturated = write(kernel, case, LONGEST, &mut written);
    saturated == write_plain(kernel, case, sweep, &mut plain) && written == plain
}

/// Compares the bodies with each end from 0 to 65, from each start, and counts them.
fn count_bodies<K: Kernel>(
    kernel: &K,
    operands: &Operands,
    sweep: &Sweep,
    (bits, variant): (u32, &Variant),
    way: &Masking,
    line: &mut Line,
) {
    for number in 0..330 {
        let end = number / 5;
        let start = [0, 1, 7, 33, end][number % 5];
        if number % 5 < sweep.starts {
            let body = &Body::new(way.unmasked, &way.mask, start, end);
            let case = Case {
                operands,
                body,
                bits,
                times: sweep.times,
                variant,
                limit: 65,
                fill: way.fill,
            };
            line.count(agrees(kernel, &case, sweep));
        }
    }
}

/// Compares a kernel's variants at a width, in one of `MASKINGS`.
fn count_variants<K: Kernel>(
    kernel: &K,
    operands: &Operands,
    sweep: &Sweep,
    bits: u32,
    way: &Masking,
    line: &mut Line,
) {
    for number in 0..sweep.variants.count() {
        let variant = &sweep.variants.variant(number);
        count_bodies(kernel, operands, sweep, (bits, variant), way, line);
    }
}

/// Compares a kernel at a width, in each of its `MASKINGS`.
fn count_ways<K: Kernel>(
    kernel: &K,
    operands: &Operands,
    sweep: &Sweep,
    bits: u32,
    line: &mut Line,
) {
    for way in MASKINGS.iter().take(sweep.maskings) {
        count_variants(kernel, operands, sweep, bits, way, line);
    }
}

/// Compares a kernel in each of its cases, and returns its line.
fn line_of<K: Kernel>(kernel: &K, name: &'static str, operands: &Operands, sweep: &Sweep) -> Line {
    let mut line = Line {
        name,
        kind: "",
        compared: 0,
        differ: 0,
    };
    for bits in WIDTHS {
        if sweep.least <= bits && bits <= sweep.greatest {
            count_ways(kernel, operands, sweep, bits, &mut line);
        }
    }
    line
}

/// Compares kernels in each of their cases, and adds a line for each to the report.
pub(crate) fn compare_kernels<K: Kernel>(
    report: &mut Report,
    kernels: &[(K, &'static str)],
    sweep: &Sweep,
) {
    let operands = &Operands::of(sweep.inputs);
    for (kernel, name) in kernels.iter() {
        report.add(line_of(kernel, *name, operands, sweep));
    }
}
