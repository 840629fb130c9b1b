//! Compares kernels with values worked by hand.
ghost use Rattle.std.specs.Prelude.{◌≤◌};

mod fixed_point;
mod masks;
mod one_width;
mod permutations;
mod reductions;
mod two_widths;

use crate::comparison::{Case, Kernel, write};
use crate::operands::{LONGEST, NO_MASK, Operands};
use crate::report::{Line, Report};
use crate::variants::Variant;
use lane_arith::Body;

/// Inputs of the kernels of a table. Operands and masks are given by their first bytes as a number, whose lowest byte is
/// the first, as in a register.
#[derive(Clone, Copy)]
struct Given {
    /// The width of an element, and how many times as wide a result is.
    bits: u32,
    times: u32,
    a: u128,
    b: u128,
    /// The first 16 bytes of the destination before the operation; its other bytes are 0xaa.
    d: u128,
    /// Size of the destination in bytes. Kernels write a destination of 31 bytes element by element.
    room: usize,
    /// The mask, if any, and the elements of the body.
    mask: Option<u16>,
    start: usize,
    end: usize,
    fill: bool,
    /// Number of elements in the source of a permutation.
    limit: usize,
    /// The bits of two mask operands.
    bits_a: u8,
    bits_b: u8,
    /// Number of bytes of the destination that a row gives; the others are unchanged.
    size: usize,
    /// Whether some element saturates.
    saturates: bool,
}

/// A kernel, its name, its offset, index, scalar or rounding mode (0 if it has none), and the first bytes of the
/// destination after it.
type Row<K> = (K, &'static str, u64, u128);

/// One element of 8 bits, without a mask.
const GIVEN: Given = Given {
    bits: 8,
    times: 1,
    a: 0,
    b: 0,
    d: 0xaaaa_aaaa_aaaa_aaaa_aaaa_aaaa_aaaa_aaaa,
    room: 31,
    mask: None,
    start: 0,
    end: 1,
    fill: false,
    limit: 0,
    bits_a: 0,
    bits_b: 0,
    size: 1,
    saturates: false,
};

/// The bytes of a number, the lowest first, padded with `other`.
fn padded<const N: usize>(number: u128, other: u8) -> [u8; N] {
    let mut bytes = [other; N];
    for i in 0..N.min(16) {
        bytes[i] = byte_of(number, i);
    }
    bytes
}

/// A byte of a number.
fn byte_of(number: u128, index: usize) -> u8 {
    let low = (number >> (8 * (index % 16))) % 256;
    low as u8
}

/// Whether the destination has the expected first bytes after the kernel, and its other bytes are unchanged.
fn leaves<K: Kernel>(kernel: &K, given: &Given, amount: u64, expected: u128) -> bool {
    let operands = &Operands {
        a: padded(given.a, 0),
        b: padded(given.b, 0),
        d: padded(given.d, 0xaa),
    };
    let (unmasked, mask) = match given.mask {
        Some(mask) => (false, padded(u128::from(mask), 0)),
        None => (true, NO_MASK),
    };
    let variant = &Variant {
        amount,
        bits: padded(u128::from(given.bits_a), 0),
        other: padded(u128::from(given.bits_b), 0),
    };
    let body = &Body::new(unmasked, &mask, given.start, given.end.min(65));
    let case = Case {
        operands,
        body,
        bits: given.bits,
        times: given.times,
        variant,
        limit: given.limit.min(65),
        fill: given.fill,
    };
    let mut bytes = operands.d;
    let room = given.room.max(16).min(LONGEST);
    let saturated = write(kernel, &case, room, &mut bytes);
    saturated == given.saturates && has(&bytes, expected, given.size, &operands.d)
}

/// Whether the first `size` bytes are the expected ones, and the bytes after them are unchanged.
fn has(bytes: &[u8; LONGEST], expected: u128, size: usize, before: &[u8; LONGEST]) -> bool {
    let mut same = true;
    for i in 0..LONGEST {
        let byte = if i < size {
            byte_of(expected, i)
        } else {
            before[i]
        };
        same &= bytes[i] == byte;
    }
    same
}

/// Compares the kernels of a table.
fn compare_rows<K: Kernel>(report: &mut Report, given: &Given, rows: &[Row<K>]) {
    for (kernel, name, amount, expected) in rows.iter() {
        let mut line = Line {
            name: *name,
            kind: " by hand",
            compared: 0,
            differ: 0,
        };
        line.count(leaves(kernel, given, *amount, *expected));
        report.add(line);
    }
}

/// Compares the kernels of all tables.
pub(crate) fn compare(report: &mut Report) {
    one_width::compare(report);
    two_widths::compare(report);
    fixed_point::compare(report);
    reductions::compare(report);
    masks::compare(report);
    permutations::compare(report);
}
