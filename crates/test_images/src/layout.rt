//! The memory of a valid image, computed slowly: its pages as a union of ranges, and each byte by a search through all
//! segments.
use crate::reading::{Segment, byte};
use rv_model::PAGE_SIZE;

/// The first range of a segment's pages from page `from` on: its first page, and the page after its last one. `None` if
/// no segment has a page from there on.
pub(crate) fn next_range(placed: &[Segment], from: u64) -> Option<(u64, u64)> {
    let mut found = None;
    let mut least = u64::MAX;
    for segment in placed {
        let first = (segment.address / PAGE_SIZE).max(from);
        let end = segment
            .address
            .saturating_add(segment.memory_size)
            .div_ceil(PAGE_SIZE);
        if segment.memory_size > 0 && first < end && first < least {
            least = first;
            found = Some((first, end));
        }
    }
    found
}

/// Replaces `found` with the segments that touch the page at address `start`, in their order.
pub(crate) fn find_touching(placed: &[Segment], start: u64, found: &mut Vec<Segment>) {
    found.clear();
    let last = start.wrapping_add(PAGE_SIZE - 1);
    for segment in placed {
        let end = segment.address.wrapping_add(segment.memory_size);
        if segment.memory_size > 0 && segment.address <= last && end > start {
            let _ = found.push(*segment);
        }
    }
}

/// The byte at an address: that of the last segment that covers it, or 0 if none does.
pub(crate) fn byte_at(image: &[u8], placed: &[Segment], addr: u64) -> u8 {
    for back in 0..placed.len() {
        let segment = &placed[placed.len() - 1 - back];
        let place = addr.wrapping_sub(segment.address);
        if addr >= segment.address && place < segment.memory_size {
            if place >= segment.file_size {
                return 0;
            }
            return byte(image, segment.offset.wrapping_add(place) as usize);
        }
    }
    0
}
