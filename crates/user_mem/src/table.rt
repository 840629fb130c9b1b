//! A user's page table: entries in ascending order of page number, looked up by binary search.
ghost use Rattle.std.specs.Prelude.{◌≡◌, ℕ, List, ◌≤◌, ◌<◌, ◌+◌, ◌-◌, ◌/◌, ◌%◌, min, cond, nat_eq, false, Some, None};
ghost use Rattle.std.specs.Prelude.{IfOk, IfErr, IfNone, length};
ghost use Rattle.arrayvec.specs.ArrayVec.{array_vec_len};
ghost use Rattle.rv_model.specs.memory.Memory.{can_access, any_page_mapped, map_refusal, can_access_byte};
ghost use Rattle.rv_model.specs.memory.Sizes.{page_size, page_quota, page_limit};
ghost use Rattle.user_mem.specs.declared.entry.Entry.{Entry};
ghost use Rattle.user_mem.specs.Table.{entry_at, memory_of, AreBelow, IsSorted, IsAt, IsGapFor};
ghost use Rattle.user_mem.specs.Frames.{times_used};

use crate::entry::Entry;
use arrayvec::ArrayVec;
use rv_model::{Access, MapRefusal, PAGE_QUOTA, PAGE_SIZE};

/// A user's mapped pages, in ascending order of page number.
pub(crate) type Table = ArrayVec<Entry, PAGE_QUOTA>;

/// Return the index of a page's entry, or as an error the index to insert it at.
pub(crate) fn search(entries: &[Entry], page: u64) -> Result<usize, usize>
    requires { IsSorted entries.now }
    ensures found { IfOk result (IsAt entries.now page) }
    ensures absent { IfErr result (IsGapFor entries.now page) }
{
    entries.binary_search_by_key(&page, |entry| entry.page)
}

/// Return the entry of a page, if it is mapped.
pub(crate) fn locate(entries: &[Entry], page: u64) -> Option<Entry>
    requires { IsSorted entries.now }
    ensures { result ≡ entry_at entries.now page }
{
    match search(entries, page) {
        Ok(place) => Some(entries[place]),
        Err(_) => None,
    }
}

/// Return whether the access to the byte at an address is allowed.
fn is_byte_allowed(entries: &[Entry], access: Access, addr: u64) -> bool
    requires { IsSorted entries.now }
    ensures { (frames : List ℕ) → result ≡ can_access_byte access (memory_of frames entries.now) addr }
{
    match locate(entries, addr / PAGE_SIZE) {
        Some(entry) => access.is_permitted(entry.permissions),
        None => false,
    }
}

/// Return how many of the next `left` bytes from `addr` on are in its page.
#[inline(always)]
pub(crate) fn bytes_in_page(addr: u64, left: usize) -> usize
    ensures { result ≡ min left (page_size - addr % page_size) }
{
    left.min((PAGE_SIZE - addr % PAGE_SIZE) as usize)
}

/// Return whether the access to all `len` bytes from `addr` on is allowed.
pub(crate) fn is_access_allowed(entries: &[Entry], access: Access, addr: u64, len: usize) -> bool
    requires sorted { IsSorted entries.now }
    requires below { AreBelow entries.now }
    ensures { (frames : List ℕ)
        → result ≡ can_access access (memory_of frames entries.now) addr len }
{
    let mut done = 0;
    while done < len {
        let Some(next) = addr.checked_add(done as u64) else {
            return false;
        };
        if !is_byte_allowed(entries, access, next) {
            return false;
        }
        done += bytes_in_page(next, len - done);
    }
    true
}

/// Return whether any of `count` pages from `page` on is mapped.
fn is_any_mapped(entries: &[Entry], page: u64, count: usize) -> bool
    requires sorted { IsSorted entries.now }
    requires ends { page + count ≤ page_limit }
    ensures mapped { (frames : List ℕ)
        → result ≡ any_page_mapped (memory_of frames entries.now) page count }
    ensures new_pages { result ≡ false → (k : ℕ) → k < count
        → entry_at entries.now (page + k) ≡ None }
{
    for i in 0..count {
        if locate(entries, page + i as u64).is_some() {
            return true;
        }
    }
    false
}

/// Return the reason why `count` pages from `page` on can't be mapped, or `None` if they can be.
pub(crate) fn refusal(entries: &[Entry], page: u64, count: usize) -> Option<MapRefusal>
    requires few { length entries.now ≤ page_quota }
    requires sorted { IsSorted entries.now }
    requires ends { page + count ≤ page_limit }
    ensures value { (frames : List ℕ)
        → result ≡ map_refusal (memory_of frames entries.now) page count }
    ensures room { IfNone result (length entries.now + count ≤ page_quota) }
    ensures new_pages { IfNone result ((k : ℕ)
        → k < count → entry_at entries.now (page + k) ≡ None) }
{
    if count > PAGE_QUOTA - entries.len() {
        return Some(MapRefusal::Quota);
    }
    if is_any_mapped(entries, page, count) {
        return Some(MapRefusal::AlreadyMapped);
    }
    None
}

/// Insert the entry of an unmapped page.
pub(crate) fn add_entry(table: &mut Table, entry: Entry)
    requires room { array_vec_len table.old < page_quota }
    requires sorted { IsSorted table.old.items }
    requires new_page { entry_at table.old.items entry.page ≡ None }
    ensures sorted { IsSorted table.new.items }
    ensures len { length table.new.items ≡ length table.old.items + 1 }
    ensures looked_up { (p : ℕ) → entry_at table.new.items p
        ≡ cond (nat_eq entry.page p) (Some entry) (entry_at table.old.items p) }
    ensures used { (f : ℕ)
        → times_used f table.new.items ≡ times_used f table.old.items + cond (nat_eq entry.frame f) 1 0 }
{
    match search(table.as_slice(), entry.page) {
        Ok(_) => unreachable!(),
        Err(place) => table.insert(place, entry),
    }
}
