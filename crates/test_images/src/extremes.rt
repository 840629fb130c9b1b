//! Images whose header fields have extreme values.
use crate::building::{Place, set};
use crate::comparison::Bench;

/// e_phoff: the offset of the table of program headers.
const TABLE: Place = Place { at: 32, size: 8 };

/// e_phnum: the number of program headers.
const COUNT: Place = Place { at: 56, size: 2 };

/// p_offset: the offset of the first segment in the file.
const OFFSET: Place = Place { at: 72, size: 8 };

/// p_vaddr: the address of the first segment.
const ADDRESS: Place = Place { at: 80, size: 8 };

/// p_filesz: the size of the first segment in the file.
const FILE_SIZE: Place = Place { at: 96, size: 8 };

/// p_memsz: the size of the first segment in memory.
const MEMORY_SIZE: Place = Place { at: 104, size: 8 };

/// The fields of the file header, and of a first program header that directly follows the file header.
const FIELDS: [Place; 16] = [
    Place { at: 0, size: 4 },
    Place { at: 4, size: 1 },
    Place { at: 5, size: 1 },
    Place { at: 16, size: 2 },
    Place { at: 18, size: 2 },
    Place { at: 24, size: 8 },
    TABLE,
    Place { at: 54, size: 2 },
    COUNT,
    Place { at: 64, size: 4 },
    Place { at: 68, size: 4 },
    OFFSET,
    ADDRESS,
    FILE_SIZE,
    MEMORY_SIZE,
    Place { at: 112, size: 8 },
];

/// Values for one field: the least and the greatest numbers of each width, numbers near the end of addresses, and numbers
/// near 128, the size of the small image in bytes.
const VALUES: [u64; 29] = [
    0,
    1,
    2,
    3,
    4,
    7,
    55,
    56,
    57,
    64,
    127,
    128,
    129,
    0xff,
    0x100,
    0xfff,
    0x1000,
    0xffff,
    0x7fff_e000,
    0xffff_ffff,
    (1 << 47) - 1,
    1 << 47,
    (1 << 48) - 4096,
    (1 << 48) - 128,
    1 << 48,
    (1 << 63) - 1,
    1 << 63,
    u64::MAX - 4095,
    u64::MAX,
];

/// Values for two fields at once.
const LIMITS: [u64; 11] = [
    0,
    1,
    127,
    128,
    129,
    0xfff,
    1 << 47,
    (1 << 48) - 128,
    1 << 48,
    u64::MAX - 4095,
    u64::MAX,
];

/// Pairs of fields that are added or compared, and two pairs of independent fields.
const PAIRS: [(Place, Place); 6] = [
    (TABLE, COUNT),
    (OFFSET, FILE_SIZE),
    (ADDRESS, MEMORY_SIZE),
    (FILE_SIZE, MEMORY_SIZE),
    (ADDRESS, FILE_SIZE),
    (OFFSET, MEMORY_SIZE),
];

/// Compares an image of at most 256 bytes after setting one or two fields to other values.
fn compare_with(good: &[u8], first: (Place, u64), second: (Place, u64), bench: &mut Bench) {
    let mut image = [0; 256];
    let size = good.len().min(256);
    image[..size].copy_from_slice(&good[..size]);
    set(&mut image, first.0, first.1);
    set(&mut image, second.0, second.1);
    bench.compare(&image[..size]);
}

/// Compares the image with each field at each value.
pub(crate) fn compare_fields(good: &[u8], bench: &mut Bench) {
    for place in &FIELDS {
        for value in &VALUES {
            compare_with(good, (*place, *value), (*place, *value), bench);
        }
    }
}

/// Compares the image with each pair of fields at each pair of limits.
pub(crate) fn compare_pairs(good: &[u8], bench: &mut Bench) {
    for (first, second) in &PAIRS {
        for value in &LIMITS {
            for other in &LIMITS {
                compare_with(good, (*first, *value), (*second, *other), bench);
            }
        }
    }
}
