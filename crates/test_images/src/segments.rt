//! Images of generated segments, which overlap, wrap around, and cover one another and the stack.
use crate::building::{add_header, begin};
use crate::comparison::Bench;
use draws::Draws;
use rv_model::ProgramHeader;

/// Addresses near which segments start: in the program, at the stack and near its end, at address 0, and near the ends of
/// addresses and of 64-bit numbers.
const BASES: [u64; 10] = [
    0x10000,
    0x10000,
    0x10000,
    0x11000,
    0x12000,
    0x7fff_b000,
    0x7fff_e000,
    0,
    (1 << 48) - 0x2000,
    u64::MAX - 0x1fff,
];

/// Number of bytes after the program headers.
const BYTES: usize = 6000;

/// The types of program headers that are rare; most program headers are loadable segments.
const RARE_KINDS: [u32; 4] = [0, 3, 0x6474_e551, 0x6474_e551];

/// A size below three pages, in bytes; often one page or 0.
fn size(draws: &mut Draws) -> u64 {
    match draws.below(6) {
        0 => 0,
        1 => 4096,
        2 => draws.below(100) as u64,
        _ => draws.below(3 * 4096) as u64,
    }
}

/// A program header whose bytes in the file are mostly among those after `headers` program headers. Its address is rarely
/// near the end of addresses or of 64-bit numbers.
fn header(draws: &mut Draws, headers: usize) -> ProgramHeader {
    let memory_size = size(draws);
    let file_size = match draws.below(30) {
        0 => memory_size.wrapping_add(1),
        1 => 0,
        _ => memory_size.min(draws.below(BYTES / 2) as u64),
    };
    let behind = 64usize.wrapping_add(headers.wrapping_mul(56)) as u64;
    let offset = match draws.below(40) {
        0 => draws.double_word(),
        _ => behind.wrapping_add(draws.below(BYTES / 2) as u64),
    };
    let kind = match RARE_KINDS.get(draws.below(40)) {
        Some(kind) => *kind,
        None => 1,
    };
    let flags = draws.word();
    let bases = if draws.below(40) == 0 { 10 } else { 7 };
    let base = BASES[draws.below(bases)];
    ProgramHeader {
        kind,
        flags,
        offset,
        address: base.wrapping_add(draws.below(0x1800) as u64),
        file_size,
        memory_size,
    }
}

/// Compares `count` images of one to eight segments each.
pub(crate) fn compare_generated(
    count: usize,
    draws: &mut Draws,
    image: &mut Vec<u8>,
    bench: &mut Bench,
) {
    for _ in 0..count {
        let mut bytes = [0; BYTES];
        draws.fill(&mut bytes);
        let size = 1 + draws.below(8);
        begin(image, size as u16);
        for _ in 0..size {
            add_header(image, &header(draws, size));
        }
        let _ = image.extend_from_slice(&bytes);
        bench.compare(image.as_slice());
    }
}
