//! Compares the check and placement of malicious images by `elf_load` with a slow reader of this program. The slow reader
//! has independent rules, computes the pages as a union of ranges, and finds each byte by a search through all segments.
//!
//! First it prints the memory that a compiler's image needs (`program_headers.rt`). Then it prints a line for each kind of
//! images: the number placed, the number over the quota, the number with each fault, and the number that differ from the
//! slow reader. It compares the first fault, the entry, the number of pages, and the bytes and permissions of each page.
#![tactic(auto)]

mod building;
mod comparison;
mod extremes;
mod layout;
mod many_segments;
mod program_headers;
mod random_bytes;
mod reading;
mod segments;

use comparison::{Bench, ENDS, print_counts};
use draws::Draws;
use extremes::{compare_fields, compare_pairs};
use many_segments::{compare_shapes, compare_sizes};
use program_headers::print_image;
use random_bytes::compare_random;
use segments::compare_generated;
use std::{fs, io};
use user_mem::Pool;

/// Number of generated images of segments.
const GENERATED: usize = 4000;

/// Number of images of random bytes: this number without a file header, and this number with one.
const RANDOM: usize = 20_000;

/// The kinds of images.
const KINDS: [&str; 8] = [
    "cuts of a small image",
    "cuts of a compiler's image",
    "fields at their extremes",
    "two fields at their extremes",
    "large segments",
    "many segments",
    "generated segments",
    "random bytes",
];

/// Compares the image cut off after each number of bytes.
fn compare_cuts(image: &[u8], bench: &mut Bench) {
    for size in 0..=image.len() {
        bench.compare(&image[..size]);
    }
}

/// Compares the images of each kind, and prints its line. The images are a small one and a compiler's, changed, and others
/// built in `image`, some from random numbers.
fn print_kinds(
    rt: &impl Print,
    good: &[u8],
    sort: &[u8],
    image: &mut Vec<u8>,
    bench: &mut Bench,
) -> io::Result<()> {
    let mut draws = Draws::new(1);
    for number in 0..KINDS.len() {
        bench.counts = [0; ENDS];
        match number {
            0 => compare_cuts(good, bench),
            1 => compare_cuts(sort, bench),
            2 => compare_fields(good, bench),
            3 => compare_pairs(good, bench),
            4 => compare_sizes(image, bench),
            5 => compare_shapes(image, bench),
            6 => compare_generated(GENERATED, &mut draws, image, bench),
            _ => compare_random(RANDOM, &mut draws, bench),
        }
        print_counts(rt, KINDS[number], &bench.counts)?;
    }
    Ok(())
}

fn main(rt: HostRuntime) -> io::Result<()> {
    let alloc = rt.alloc();
    let good = fs::read(&rt, "good")?;
    let sort = fs::read(&rt, "sortgcc")?;
    print_image(&rt, sort.as_slice())?;
    let Ok(pool) = Pool::new(alloc) else {
        return println!(rt; "memory is refused");
    };
    let mut bench = Bench {
        pool,
        placed: Vec::new(alloc),
        touching: Vec::new(alloc),
        counts: [0; ENDS],
    };
    let mut image = Vec::new(alloc);
    print_kinds(
        &rt,
        good.as_slice(),
        sort.as_slice(),
        &mut image,
        &mut bench,
    )
}
