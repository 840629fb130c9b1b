//! The slow reader of images. It checks each rule independently, and reads each number from its field. Bytes after the end
//! of the file count as zeros.

/// A program header of the file.
#[derive(Clone, Copy, Drop)]
pub(crate) struct Segment {
    pub kind: u64,
    pub flags: u64,
    pub offset: u64,
    pub address: u64,
    pub file_size: u64,
    pub memory_size: u64,
}

/// The stack: four readable and writable pages of zeros.
const STACK: Segment = Segment {
    kind: 1,
    flags: 6,
    offset: 0,
    address: 0x7fff_b000,
    file_size: 0,
    memory_size: 0x4000,
};

/// The byte at an offset of an image; 0 after its end.
pub(crate) fn byte(image: &[u8], at: usize) -> u8 {
    match image.get(at) {
        Some(byte) => *byte,
        None => 0,
    }
}

/// The little-endian number in the `size` bytes at an offset; `size` is at most 8.
fn number(image: &[u8], at: usize, size: usize) -> u64 {
    let mut number = 0u64;
    let mut weight = 1u64;
    for place in 0..size {
        let byte = u64::from(byte(image, at.saturating_add(place)));
        number = number.wrapping_add(byte.wrapping_mul(weight));
        weight = weight.wrapping_mul(256);
    }
    number
}

/// The entry: the address of the first instruction.
pub(crate) fn entry(image: &[u8]) -> u64 {
    number(image, 24, 8)
}

/// The program header at an offset.
fn segment_at(image: &[u8], at: usize) -> Segment {
    Segment {
        kind: number(image, at, 4),
        flags: number(image, at.saturating_add(4), 4),
        offset: number(image, at.saturating_add(8), 8),
        address: number(image, at.saturating_add(16), 8),
        file_size: number(image, at.saturating_add(32), 8),
        memory_size: number(image, at.saturating_add(40), 8),
    }
}

/// The name of the first fault in the file header, or in the position of the program headers.
fn file_fault(image: &[u8]) -> Option<&'static str> {
    let size = image.len() as u128;
    let count = number(image, 56, 2);
    let table = 56u64.wrapping_mul(count);
    let table_end = u128::from(number(image, 32, 8)) + u128::from(table);
    let rules = [
        (size < 64, "Short"),
        (number(image, 0, 4) != 0x464c_457f, "Magic"),
        (number(image, 4, 1) != 2, "Class"),
        (number(image, 5, 1) != 1, "Data"),
        (number(image, 16, 2) != 2, "Type"),
        (number(image, 18, 2) != 243, "Machine"),
        (count != 0 && number(image, 54, 2) != 56, "HeaderSize"),
        (count != 0 && table_end > size, "HeaderTable"),
    ];
    for (broken, name) in rules {
        if broken {
            return Some(name);
        }
    }
    None
}

/// The names of the faults of single segments, in the order of their checks, and last that of the entry.
const LATER_RULES: [&str; 5] = ["Interp", "FileSize", "Outside", "Address", "Entry"];

/// Whether a segment has each of the faults of single segments, in a file of `size` bytes.
fn broken(segment: &Segment, size: usize) -> [bool; 4] {
    let end_in_file = u128::from(segment.offset) + u128::from(segment.file_size);
    let end = u128::from(segment.address) + u128::from(segment.memory_size);
    let is_loaded = segment.kind == 1;
    [
        segment.kind == 3,
        is_loaded && segment.file_size > segment.memory_size,
        is_loaded && segment.file_size > 0 && end_in_file > size as u128,
        is_loaded && end > 1 << 48,
    ]
}

/// Reads an image: returns the name of its first fault, and replaces `placed` with the stack and then the loadable
/// segments in order. If memory for these is refused, segments are missing, and the image differs from its placement.
pub(crate) fn read_image(image: &[u8], placed: &mut Vec<Segment>) -> Option<&'static str> {
    placed.clear();
    if let Some(name) = file_fault(image) {
        return Some(name);
    }
    let _ = placed.push(STACK);
    let table = number(image, 32, 8) as usize;
    let mut least = if entry(image) % 4 == 0 { 5 } else { 4 };
    for index in 0..number(image, 56, 2) as usize {
        let segment = segment_at(image, table.saturating_add(index.saturating_mul(56)));
        let broken = broken(&segment, image.len());
        for rule in 0..4 {
            if broken[rule] && rule < least {
                least = rule;
            }
        }
        if segment.kind == 1 {
            let _ = placed.push(segment);
        }
    }
    LATER_RULES.get(least).copied()
}
