//! The list of free frames: mapping pages removes frames from it, and dropping a table returns its frames.
ghost use Rattle.std.specs.Prelude.{◌≡◌, ℕ, ◌<◌, ◌≤◌, ◌+◌, cond, nat_lt, [], None, List, length};
ghost use Rattle.rv_model.specs.memory.Memory.{with_pages};
ghost use Rattle.rv_model.specs.memory.Sizes.{page_quota, frame_count, page_limit};
ghost use Rattle.user_mem.specs.declared.entry.Entry.{Entry};
ghost use Rattle.user_mem.specs.Table.{entry_at, memory_of, AreBelow, IsSorted};
ghost use Rattle.user_mem.specs.Frames.{times_free, times_used, ShareNoFrame};

use crate::frames::map_page;
use crate::table::Table;
use arrayvec::ArrayVec;
use rv_model::{FRAME_COUNT, Permissions};

/// The numbers of the frames that hold no page.
pub(crate) type FreeFrames = ArrayVec<usize, FRAME_COUNT>;

/// Return the numbers of all frames.
pub(crate) fn all_free() -> FreeFrames
    ensures once { (f : ℕ) → times_free f result.items ≡ cond (nat_lt f frame_count) 1 0 }
    ensures len { length result.items ≡ frame_count }
{
    let mut free = ArrayVec::new();
    for frame in 0..FRAME_COUNT {
        free.push(frame);
    }
    free
}

/// Map one page of zeros in a free frame.
fn take_page(
    table: &mut Table,
    free: &mut FreeFrames,
    frames: &mut [u8],
    page: u64,
    permissions: Permissions,
)
    requires room { length table.old.items < page_quota }
    requires some { 0 < length free.old.items }
    requires sorted { IsSorted table.old.items }
    requires disjoint { ShareNoFrame free.old.items (length frames.old) table.old.items }
    requires new_page { entry_at table.old.items page ≡ None }
    ensures mapped { memory_of frames.new table.new.items
        ≡ with_pages (memory_of frames.old table.old.items) page 1 permissions }
    ensures others { (other : List Entry) → ShareNoFrame free.old.items (length frames.old) other
        → memory_of frames.new other ≡ memory_of frames.old other }
    ensures sorted { IsSorted table.new.items }
    ensures below { page < page_limit → AreBelow table.old.items → AreBelow table.new.items }
    ensures elsewhere { (p : ℕ) → page < p
        → entry_at table.new.items p ≡ entry_at table.old.items p }
    ensures owners { (f : ℕ) → times_free f free.new.items + times_used f table.new.items
        ≡ times_free f free.old.items + times_used f table.old.items }
    ensures fewer { (f : ℕ) → times_free f free.new.items ≤ times_free f free.old.items }
    ensures len { length table.new.items ≡ length table.old.items + 1 }
    ensures left { length free.new.items + 1 ≡ length free.old.items }
    ensures size { length frames.new ≡ length frames.old }
{
    match free.pop() {
        Some(frame) => map_page(table, frames, frame, page, permissions),
        None => unreachable!(),
    }
}

/// Map `count` pages of zeros, from `page` on, in free frames.
pub(crate) fn take_pages(
    table: &mut Table,
    free: &mut FreeFrames,
    frames: &mut [u8],
    page: u64,
    count: usize,
    permissions: Permissions,
)
    requires room { length table.old.items + count ≤ page_quota }
    requires some { count ≤ length free.old.items }
    requires ends { page + count ≤ page_limit }
    requires sorted { IsSorted table.old.items }
    requires below { AreBelow table.old.items }
    requires disjoint { ShareNoFrame free.old.items (length frames.old) table.old.items }
    requires new_pages { (k : ℕ) → k < count → entry_at table.old.items (page + k) ≡ None }
    ensures mapped { memory_of frames.new table.new.items
        ≡ with_pages (memory_of frames.old table.old.items) page count permissions }
    ensures others { (other : List Entry) → ShareNoFrame free.old.items (length frames.old) other
        → memory_of frames.new other ≡ memory_of frames.old other }
    ensures sorted { IsSorted table.new.items }
    ensures below { AreBelow table.new.items }
    ensures owners { (f : ℕ) → times_free f free.new.items + times_used f table.new.items
        ≡ times_free f free.old.items + times_used f table.old.items }
    ensures len { length table.new.items ≡ length table.old.items + count }
    ensures left { length free.new.items + count ≡ length free.old.items }
    ensures size { length frames.new ≡ length frames.old }
{
    for i in 0..count {
        take_page(table, free, frames, page + i as u64, permissions);
    }
}

/// Return all frames of a table to the free list, and empty the table.
pub(crate) fn give_back(table: &mut Table, free: &mut FreeFrames)
    requires { length free.old.items + length table.old.items ≤ frame_count }
    ensures empty { table.new.items ≡ [] }
    ensures owners { (f : ℕ)
        → times_free f free.new.items ≡ times_free f free.old.items + times_used f table.old.items }
    ensures len { length free.new.items ≡ length free.old.items + length table.old.items }
{
    for i in 0..table.len() {
        free.push(table.as_slice()[i].frame);
    }
    table.clear();
}
