//! Compares the check and placement of images with a slow reader.
use crate::layout::{byte_at, find_touching, next_range};
use crate::reading::{Segment, entry, read_image};
use elf_load::{Plan, check, place};
use rv_model::{Access, PAGE_QUOTA, PAGE_SIZE, User};
use std::io;
use user_mem::Pool;

/// Number of results that are counted.
pub(crate) const ENDS: usize = 16;

/// The names of the results in the output: placed, over the quota, one of the faults in the order of their checks, or
/// different from the slow reader's result.
const NAMES: [&str; ENDS] = [
    "placed",
    "over the quota",
    "Short",
    "Magic",
    "Class",
    "Data",
    "Type",
    "Machine",
    "HeaderSize",
    "HeaderTable",
    "Interp",
    "FileSize",
    "Outside",
    "Address",
    "Entry",
    "differ",
];

/// The index of `placed` in `NAMES`.
const PLACED: usize = 0;

/// The index of `over the quota` in `NAMES`.
const OVER_QUOTA: usize = 1;

/// The index of `differ` in `NAMES`.
const DIFFER: usize = 15;

/// The accesses to a page, with the flag of each in a program header.
const USES: [(Access, u64); 3] = [(Access::Load, 4), (Access::Store, 2), (Access::Fetch, 1)];

/// A pool where images are placed for user 1, the segments that the slow reader finds, and the count of each result.
#[derive(Drop)]
pub(crate) struct Bench {
    pub pool: Pool,
    pub placed: Vec<Segment>,
    pub touching: Vec<Segment>,
    pub counts: [u64; ENDS],
}

/// Prints the line of a kind of images: the counts above 0, and always those of `placed`, `over the quota` and `differ`.
pub(crate) fn print_counts(rt: &impl Print, name: &str, counts: &[u64; ENDS]) -> io::Result<()> {
    print!(rt; "{name}")?;
    let mut gap = ": ";
    for end in 0..ENDS {
        let count = counts[end];
        if count > 0 || end <= OVER_QUOTA || end == DIFFER {
            print!(rt; "{gap}{count} {}", NAMES[end])?;
            gap = ", ";
        }
    }
    println!(rt; "")
}

impl Bench {
    /// Counts an image with this result, and whether the slow reader has the same result.
    fn count(&mut self, end: usize, same: bool) {
        if let Some(count) = self.counts.get_mut(end) {
            *count = count.wrapping_add(1);
        }
        self.counts[DIFFER] = self.counts[DIFFER].wrapping_add(u64::from(!same));
    }

    /// Whether the page at an address has the bytes of the segments that touch it, and exactly the permissions that they
    /// grant.
    fn is_page(&self, image: &[u8], start: u64) -> bool {
        let user = User::at_index(0);
        let touching = self.touching.as_slice();
        let mut bytes = [0; PAGE_SIZE as usize];
        let mut same = self
            .pool
            .read(user, start, Access::Monitor, &mut bytes)
            .is_ok();
        for place in 0..PAGE_SIZE {
            let byte = byte_at(image, touching, start.wrapping_add(place));
            same = same && bytes[place as usize] == byte;
        }
        for (access, flag) in USES {
            let mut granted = false;
            for segment in touching {
                granted = granted || segment.flags & flag != 0;
            }
            let allowed = self.pool.check(user, start, PAGE_SIZE as usize, access);
            same = same && allowed.is_ok() == granted;
        }
        same
    }

    /// Compares the pages of a valid image. Each range has at least one page, so an image with more than `PAGE_QUOTA`
    /// ranges is over the quota.
    fn compare_plan(&mut self, image: &[u8], plan: &Plan<'_>) {
        let user = User::at_index(0);
        let before = self.pool.pages(user);
        let placed = place(plan, user, &mut self.pool);
        let mut same = true;
        let mut from = 0;
        let mut count = 0u64;
        for _ in 0..=PAGE_QUOTA {
            let Some((first, end)) = next_range(self.placed.as_slice(), from) else {
                break;
            };
            from = end;
            count = count.saturating_add(end.saturating_sub(first));
            if count <= PAGE_QUOTA as u64 {
                for page in first..end {
                    let start = page.wrapping_mul(PAGE_SIZE);
                    find_touching(self.placed.as_slice(), start, &mut self.touching);
                    same = same && self.is_page(image, start);
                }
            }
        }
        let planned = plan.pages();
        if count > PAGE_QUOTA as u64 {
            let kept = self.pool.pages(user) == before;
            self.count(OVER_QUOTA, planned.is_none() && placed.is_err() && kept);
        } else {
            let pages = self.pool.pages(user) as u64;
            let same = same && planned == Some(count as usize) && pages == count;
            self.count(PLACED, same && placed == Ok(entry(image)));
        }
    }

    /// Compares the fault, or the placement, of an image with the slow reader's.
    pub(crate) fn compare(&mut self, image: &[u8]) {
        let fault = read_image(image, &mut self.placed);
        match check(image) {
            Ok(plan) if fault.is_none() => self.compare_plan(image, &plan),
            Ok(_) => self.count(ENDS, false),
            Err(planned) => {
                let planned = planned.name();
                let mut end = ENDS;
                for number in 0..ENDS {
                    if NAMES[number] == planned {
                        end = number;
                    }
                }
                self.count(end, fault == Some(planned));
            }
        }
    }
}
