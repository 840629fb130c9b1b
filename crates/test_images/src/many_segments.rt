//! Images of thousands of segments over the same pages, and of single segments that are very large.
use crate::building::{add_header, begin};
use crate::comparison::Bench;
use rv_model::{PAGE_SIZE, ProgramHeader};

/// Number of pages that a user can have in addition to the stack.
const PAGES: u64 = 252;

/// Address of the first page.
const START: u64 = 0x10000;

/// Rules for the addresses and sizes of a segment by its number.
#[derive(Clone, Copy, Drop)]
enum Shape {
    /// Each segment covers all pages.
    Whole,
    /// Each segment ends one byte before the end of the previous one.
    Shorter,
    /// Each segment starts one byte after the start of the previous one, with 5 bytes from the file.
    Later,
    /// Each segment covers one page, in turn from the first page on.
    Cycle,
    /// Each segment covers the last byte of a page, in turn from the last page down.
    Bytes,
    /// Each segment has 0 bytes.
    Empty,
}

/// Each shape, and the number of segments in its first image. There are few large segments, since all of them are written;
/// the number of small ones is one less than a file can have.
const SHAPES: [(Shape, u16); 6] = [
    (Shape::Whole, 2000),
    (Shape::Shorter, 2000),
    (Shape::Later, 2000),
    (Shape::Cycle, 65_534),
    (Shape::Bytes, 65_534),
    (Shape::Empty, 65_534),
];

/// A readable and writable segment, with `file_size` bytes from the file at `offset`.
fn segment(address: u64, memory_size: u64, offset: u64, file_size: u64) -> ProgramHeader {
    ProgramHeader {
        kind: 1,
        flags: 6,
        offset,
        address,
        file_size,
        memory_size,
    }
}

/// The segment with this number, counted from 0.
fn of_shape(shape: Shape, number: u64) -> ProgramHeader {
    let size = PAGES * PAGE_SIZE;
    let page = number % PAGES * PAGE_SIZE;
    let skipped = number % size;
    let offset = number % 64;
    match shape {
        Shape::Whole => segment(START, size, 0, 0),
        Shape::Shorter => segment(START, size - skipped, 0, 0),
        Shape::Later => segment(
            START + skipped,
            size - skipped,
            offset,
            5.min(size - skipped),
        ),
        Shape::Cycle => segment(START + page, PAGE_SIZE, 0, 0),
        Shape::Bytes => segment(START + size - 1 - page, 1, offset, 1),
        Shape::Empty => segment(START, 0, 0, 0),
    }
}

/// Compares images with segments of each shape, and the same images with another segment that exceeds the quota.
pub(crate) fn compare_shapes(image: &mut Vec<u8>, bench: &mut Bench) {
    for (shape, count) in SHAPES {
        for more in 0..2 {
            begin(image, count.wrapping_add(more));
            for number in 0..count {
                add_header(image, &of_shape(shape, u64::from(number)));
            }
            if more == 1 {
                add_header(image, &segment(0, START + PAGES * PAGE_SIZE + 1, 0, 0));
            }
            bench.compare(image.as_slice());
        }
    }
}

/// Compares images of one segment of zeros: up to the quota, one page above it, up to the end of addresses, and past it.
pub(crate) fn compare_sizes(image: &mut Vec<u8>, bench: &mut Bench) {
    let exact = PAGES * PAGE_SIZE;
    for size in [exact - 1, exact, exact + 1, 1 << 47, 1 << 48, (1 << 48) + 1] {
        for address in [0, 1, 4095, 0x7fff_b000, 0x7ff0_0000] {
            begin(image, 1);
            add_header(image, &segment(address, size, 0, 0));
            bench.compare(image.as_slice());
        }
    }
}
