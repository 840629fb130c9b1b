//! Builds images from fields, in a `Vec` that is reused for each image. If memory for it is refused, an image lacks
//! bytes, and the printed numbers differ from the expected ones.
use rv_model::ProgramHeader;

/// A field of a header: its offset in the image, and its size in bytes, at most 8.
#[derive(Clone, Copy, Drop)]
pub(crate) struct Place {
    pub at: usize,
    pub size: usize,
}

/// Writes a number to a field of an image in little-endian order; bytes of the field after the image's end are skipped.
pub(crate) fn set(image: &mut [u8], place: Place, value: u64) {
    let mut rest = value;
    for number in 0..place.size {
        if let Some(byte) = image.get_mut(place.at.saturating_add(number)) {
            *byte = (rest % 256) as u8;
        }
        rest /= 256;
    }
}

/// A file header for this number of program headers, which directly follow it.
pub(crate) fn file_header(count: u16) -> [u8; 64] {
    let mut header = [0; 64];
    let fields = [
        (0, 4, 0x464c_457f),
        (4, 1, 2),
        (5, 1, 1),
        (16, 2, 2),
        (18, 2, 243),
        (24, 8, 0x10000),
        (32, 8, 64),
        (54, 2, 56),
        (56, 2, u64::from(count)),
    ];
    for (at, size, value) in fields {
        set(&mut header, Place { at, size }, value);
    }
    header
}

/// Replaces the image with a file header for this number of program headers.
pub(crate) fn begin(image: &mut Vec<u8>, count: u16) {
    image.clear();
    let _ = image.extend_from_slice(&file_header(count));
}

/// Appends a program header.
pub(crate) fn add_header(image: &mut Vec<u8>, header: &ProgramHeader) {
    let mut bytes = [0; 56];
    let fields = [
        (0, 4, u64::from(header.kind)),
        (4, 4, u64::from(header.flags)),
        (8, 8, header.offset),
        (16, 8, header.address),
        (24, 8, header.address),
        (32, 8, header.file_size),
        (40, 8, header.memory_size),
    ];
    for (at, size, value) in fields {
        set(&mut bytes, Place { at, size }, value);
    }
    let _ = image.extend_from_slice(&bytes);
}
