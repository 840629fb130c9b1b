//! The bytes of all frames, one page each: reads and writes through a user's page table.
ghost use Rattle.std.specs.Prelude.{◌≡◌, ℕ, List, ◌≤◌, ◌<◌, ◌+◌, ◌*◌, ◌/◌, ◌%◌, ◌^◌, ◌⊎◌, cond, nat_eq, true, Some};
ghost use Rattle.std.specs.Prelude.{None, length, slice_index};
ghost use Rattle.arrayvec.specs.ArrayVec.{array_vec_len};
ghost use Rattle.rv_model.specs.memory.Memory.{can_access, bytes_at, put_bytes, with_pages, can_access_byte};
ghost use Rattle.rv_model.specs.memory.Sizes.{page_size, page_quota};
ghost use Rattle.user_mem.specs.declared.entry.Entry.{Entry};
ghost use Rattle.user_mem.specs.Table.{entry_at, memory_of, IsSorted, AreBelow, FitIn, AreSeparate, AreApart};
ghost use Rattle.user_mem.specs.Frames.{times_used};

use crate::entry::Entry;
use crate::table::{Table, add_entry, bytes_in_page, locate};
use rv_model::{Access, PAGE_SIZE, Permissions};

/// The size of a frame in bytes, equal to the page size.
pub(crate) const FRAME_SIZE: usize = PAGE_SIZE as usize;

/// Return the index, in the bytes of all frames, of the byte at `addr`, whose page is in `frame`.
#[inline(always)]
pub(crate) fn index_in(frame: usize, addr: u64) -> usize
    requires { page_size * frame + page_size < 2 ^ 64 }
    ensures { result ≡ page_size * frame + addr % page_size }
{
    FRAME_SIZE * frame + addr as usize % FRAME_SIZE
}

/// Return the index, in the bytes of all frames, of the byte at a mapped address.
fn index_of(entries: &[Entry], frames: &[u8], addr: u64) -> usize
    requires sorted { IsSorted entries.now }
    requires fit { FitIn entries.now (length frames.now) }
    requires mapped { can_access_byte Access.Monitor (memory_of frames.now entries.now) addr ≡ true }
    ensures within { result + page_size ≤ length frames.now + addr % page_size }
    ensures place { (e : Entry) → entry_at entries.now (addr / page_size) ≡ Some e
        → result ≡ page_size * e.frame + addr % page_size }
{
    match locate(entries, addr / PAGE_SIZE) {
        Some(entry) => index_in(entry.frame, addr),
        None => unreachable!(),
    }
}

/// Copy `N` bytes to `target` from index `at` on. The constant length lets the compiler inline the copy.
#[inline(always)]
fn paste_known<const N: usize>(target: &mut [u8], at: usize, bytes: &[u8])
    requires within { at + N ≤ length target.old }
    requires count { length bytes.now ≡ N }
    ensures size { length target.new ≡ length target.old }
    ensures pasted { (k : ℕ) → k < length bytes.now
        → slice_index target.new (at + k) ≡ slice_index bytes.now k }
    ensures kept { (i : ℕ) → ((i < at) ⊎ (at + length bytes.now ≤ i))
        → slice_index target.new i ≡ slice_index target.old i }
{
    target[at..at + N].copy_from_slice(&bytes[..N]);
}

/// Copy bytes to `target` from index `at` on. Copies of 1, 2, 4 and 8 bytes, the widths of a number, are inlined.
#[inline(always)]
pub(crate) fn paste(target: &mut [u8], at: usize, bytes: &[u8])
    requires { at + length bytes.now ≤ length target.old }
    ensures size { length target.new ≡ length target.old }
    ensures pasted { (k : ℕ) → k < length bytes.now
        → slice_index target.new (at + k) ≡ slice_index bytes.now k }
    ensures kept { (i : ℕ) → ((i < at) ⊎ (at + length bytes.now ≤ i))
        → slice_index target.new i ≡ slice_index target.old i }
{
    match bytes.len() {
        1 => paste_known::<1>(target, at, bytes),
        2 => paste_known::<2>(target, at, bytes),
        4 => paste_known::<4>(target, at, bytes),
        8 => paste_known::<8>(target, at, bytes),
        len => target[at..at + len].copy_from_slice(bytes),
    }
}

/// Copy a user's bytes from `addr` on to `buffer`.
pub(crate) fn copy_out(entries: &[Entry], frames: &[u8], addr: u64, buffer: &mut [u8])
    requires sorted { IsSorted entries.now }
    requires below { AreBelow entries.now }
    requires fit { FitIn entries.now (length frames.now) }
    requires mapped { can_access Access.Monitor (memory_of frames.now entries.now) addr
        (length buffer.old) ≡ true }
    ensures { buffer.new ≡ bytes_at (memory_of frames.now entries.now) addr (length buffer.old) }
{
    let mut done = 0;
    while done < buffer.len() {
        let next = addr + done as u64;
        let len = bytes_in_page(next, buffer.len() - done);
        let start = index_of(entries, frames, next);
        paste(buffer, done, &frames[start..start + len]);
        done += len;
    }
}

/// Write a user's bytes from `addr` on.
pub(crate) fn copy_in(entries: &[Entry], frames: &mut [u8], addr: u64, bytes: &[u8])
    requires sorted { IsSorted entries.now }
    requires below { AreBelow entries.now }
    requires fit { FitIn entries.now (length frames.old) }
    requires separate { AreSeparate entries.now }
    requires mapped { can_access Access.Monitor (memory_of frames.old entries.now) addr
        (length bytes.now) ≡ true }
    ensures written { memory_of frames.new entries.now
        ≡ put_bytes (memory_of frames.old entries.now) addr bytes.now }
    ensures others { (other : List Entry) → AreApart entries.now other
        → memory_of frames.new other ≡ memory_of frames.old other }
    ensures size { length frames.new ≡ length frames.old }
{
    let mut done = 0;
    while done < bytes.len() {
        let next = addr + done as u64;
        let len = bytes_in_page(next, bytes.len() - done);
        let start = index_of(entries, frames, next);
        paste(frames, start, &bytes[done..done + len]);
        done += len;
    }
}

/// Fill a frame with zeros.
fn zero_frame(frames: &mut [u8], frame: usize)
    requires { page_size * frame + page_size ≤ length frames.old }
    ensures size { length frames.new ≡ length frames.old }
    ensures zeros { (k : ℕ) → k < page_size → slice_index frames.new (page_size * frame + k) ≡ 0 }
    ensures kept { (i : ℕ) → ((i < page_size * frame) ⊎ (page_size * frame + page_size ≤ i))
        → slice_index frames.new i ≡ slice_index frames.old i }
{
    for k in 0..FRAME_SIZE {
        frames[FRAME_SIZE * frame + k] = 0;
    }
}

/// Map one page of zeros, in a frame that the table doesn't use.
pub(crate) fn map_page(
    table: &mut Table,
    frames: &mut [u8],
    frame: usize,
    page: u64,
    permissions: Permissions,
)
    requires room { array_vec_len table.old < page_quota }
    requires sorted { IsSorted table.old.items }
    requires fits { page_size * frame + page_size ≤ length frames.old }
    requires new_page { entry_at table.old.items page ≡ None }
    requires unused { times_used frame table.old.items ≡ 0 }
    ensures mapped { memory_of frames.new table.new.items
        ≡ with_pages (memory_of frames.old table.old.items) page 1 permissions }
    ensures others { (other : List Entry) → times_used frame other ≡ 0
        → memory_of frames.new other ≡ memory_of frames.old other }
    ensures sorted { IsSorted table.new.items }
    ensures looked_up { (p : ℕ) → entry_at table.new.items p
        ≡ cond (nat_eq page p)
        (Some (record { page = page; frame = frame; permissions = permissions }))
        (entry_at table.old.items p) }
    ensures used { (f : ℕ)
        → times_used f table.new.items ≡ times_used f table.old.items + cond (nat_eq frame f) 1 0 }
    ensures len { length table.new.items ≡ length table.old.items + 1 }
    ensures size { length frames.new ≡ length frames.old }
{
    zero_frame(frames, frame);
    add_entry(
        table,
        Entry {
            page,
            frame,
            permissions,
        },
    );
}
