//! The page tables of all users over the pool's frames. Here users are indices from 0.
ghost use Rattle.std.specs.Prelude.{◌≡◌, ◌≢◌, List, ℕ, ◌<◌, ◌≤◌, ◌+◌, ◌↔◌, [], None, false, true, length};
ghost use Rattle.std.specs.Prelude.{IsOk, IfErr, IfSome, OnOk, OnErr, slice_index_or, slice_set};
ghost use Rattle.rv_model.specs.memory.Memory.{can_access, put_bytes, with_pages};
ghost use Rattle.rv_model.specs.memory.Sizes.{page_quota, page_limit};
ghost use Rattle.rv_model.specs.machine.Setup.{user_count};
ghost use Rattle.user_mem.specs.Table.{entry_at, memory_of};
ghost use Rattle.user_mem.specs.Pool.{IsPool, entries_of, table_at, memories_of};
ghost use Rattle.user_mem.specs.Translations.{AllTranslate, Translates};
ghost use Rattle.user_mem.specs.declared.translations.Translations.{Translations};

use crate::access;
use crate::entry::Entry;
use crate::free::{FreeFrames, give_back, take_pages};
use crate::table::Table;
use crate::translations::Translations;
use lent_bytes::Edit;
use rv_model::{Access, Fault, Permissions, USER_COUNT};

/// The page tables of all users, user 1 first.
pub(crate) type Tables = [Table; USER_COUNT];

/// The page translations of all users, user 1 first.
pub(crate) type AllTranslations = [Translations; USER_COUNT];

/// A range of consecutive pages: the number of the first page, and the number of pages.
#[derive(Clone, Copy)]
pub(crate) struct PageRange {
    pub first: u64,
    pub count: usize,
}

/// Return the page-table entries of the user at an index.
#[inline(always)]
pub(crate) fn user_entries(tables: &Tables, user: usize) -> &[Entry]
    requires { user < user_count }
    ensures { result.now ≡ table_at (entries_of tables.now) user }
{
    tables[user].as_slice()
}

/// Map pages of zeros for the user at an index.
pub(crate) fn map_user(
    tables: &mut Tables,
    user: usize,
    free: &mut FreeFrames,
    frames: &mut [u8],
    pages: PageRange,
    permissions: Permissions,
)
    requires user { user < user_count }
    requires pool { IsPool (entries_of tables.old) free.old.items frames.old }
    requires room { length (table_at (entries_of tables.old) user) + pages.count ≤ page_quota }
    requires ends { pages.first + pages.count ≤ page_limit }
    requires new_pages { (k : ℕ) → k < pages.count
        → entry_at (table_at (entries_of tables.old) user) (pages.first + k) ≡ None }
    ensures pool { IsPool (entries_of tables.new) free.new.items frames.new }
    ensures mapped { memories_of frames.new (entries_of tables.new)
        ≡ slice_set (memories_of frames.old (entries_of tables.old)) user
        (with_pages (memory_of frames.old (table_at (entries_of tables.old) user))
        pages.first pages.count permissions) }
    ensures others { (u : ℕ) → u ≢ user → table_at (entries_of tables.new) u ≡ table_at (entries_of tables.old) u }
    ensures size { length frames.new ≡ length frames.old }
{
    take_pages(
        &mut tables[user],
        free,
        frames,
        pages.first,
        pages.count,
        permissions,
    );
}

/// Rebuild the translations of the user at an index after a change of the user's pages.
pub(crate) fn translate_user(all: &mut AllTranslations, tables: &Tables, user: usize)
    requires user { user < user_count }
    requires pool { (free frames : List ℕ) × IsPool (entries_of tables.now) free frames }
    requires others { (u : ℕ) (d : Translations) → u < user_count → u ≢ user
        → Translates (table_at (entries_of tables.now) u) (slice_index_or all.old u d) }
    ensures { AllTranslate (entries_of tables.now) all.new }
{
    all[user].set(user_entries(tables, user));
}

/// Unmap all pages of the user at an index.
pub(crate) fn drop_pages(tables: &mut Tables, user: usize, free: &mut FreeFrames, frames: &[u8])
    requires user { user < user_count }
    requires pool { IsPool (entries_of tables.old) free.old.items frames.now }
    ensures pool { IsPool (entries_of tables.new) free.new.items frames.now }
    ensures dropped { entries_of tables.new ≡ slice_set (entries_of tables.old) user [] }
{
    give_back(&mut tables[user], free);
}

/// The kind and the first address of an access.
#[derive(Clone, Copy)]
pub(crate) struct Target {
    pub access: Access,
    pub addr: u64,
}

/// Write bytes of the user at an index if a single cached page has room for them and permits the access; return whether
/// it does.
#[inline(always)]
pub(crate) fn try_write_user(
    tables: &Tables,
    all: &AllTranslations,
    user: usize,
    frames: &mut [u8],
    target: Target,
    bytes: &[u8],
) -> bool
    requires user { user < user_count }
    requires pool { (free : List ℕ) × IsPool (entries_of tables.now) free frames.old }
    requires translated { AllTranslate (entries_of tables.now) all.now }
    ensures allowed { result ≡ true → can_access target.access
        (memory_of frames.old (table_at (entries_of tables.now) user)) target.addr (length bytes.now) ≡ true }
    ensures pool { (free : List ℕ) → IsPool (entries_of tables.now) free frames.old
        → IsPool (entries_of tables.now) free frames.new }
    ensures value { result ≡ true → memories_of frames.new (entries_of tables.now)
        ≡ slice_set (memories_of frames.old (entries_of tables.now)) user
        (put_bytes (memory_of frames.old (table_at (entries_of tables.now) user)) target.addr bytes.now) }
    ensures unchanged { result ≡ false → frames.new ≡ frames.old }
    ensures size { length frames.new ≡ length frames.old }
{
    access::try_write(
        user_entries(tables, user),
        &all[user],
        frames,
        target.access,
        target.addr,
        bytes,
    )
}

/// Pass the bytes of a page of the user at an index to an edit, if a single lookup finds that they may be stored. Return
/// the edit's result; `None` changes nothing.
#[inline(always)]
pub(crate) fn edit_user<E: Edit>(
    tables: &Tables,
    all: &AllTranslations,
    user: usize,
    frames: &mut [u8],
    addr: u64,
    edit: &E,
) -> Option<usize>
    requires user { user < user_count }
    requires pool { (free : List ℕ) × IsPool (entries_of tables.now) free frames.old }
    requires translated { AllTranslate (entries_of tables.now) all.now }
    ensures changed { IfSome result (λ n. E.changes edit.now
        (memory_of frames.old (table_at (entries_of tables.now) user)) n
        (memory_of frames.new (table_at (entries_of tables.now) user))) }
    ensures pool { (free : List ℕ) → IsPool (entries_of tables.now) free frames.old
        → IsPool (entries_of tables.now) free frames.new }
    ensures value { memories_of frames.new (entries_of tables.now)
        ≡ slice_set (memories_of frames.old (entries_of tables.now)) user
        (memory_of frames.new (table_at (entries_of tables.now) user)) }
    ensures unchanged { result ≡ None → frames.new ≡ frames.old }
    ensures size { length frames.new ≡ length frames.old }
{
    access::edit_page(user_entries(tables, user), &all[user], frames, addr, edit)
}

/// Write bytes of the user at an index, page by page.
pub(crate) fn write_user(
    tables: &Tables,
    user: usize,
    frames: &mut [u8],
    target: Target,
    bytes: &[u8],
) -> Result<(), Fault>
    requires user { user < user_count }
    requires pool { (free : List ℕ) × IsPool (entries_of tables.now) free frames.old }
    ensures allowed { IsOk result ↔ (can_access target.access
        (memory_of frames.old (table_at (entries_of tables.now) user)) target.addr (length bytes.now)
        ≡ true) }
    ensures pool { (free : List ℕ) → IsPool (entries_of tables.now) free frames.old
        → IsPool (entries_of tables.now) free frames.new }
    ensures ok { OnOk result (memories_of frames.new (entries_of tables.now)
        ≡ slice_set (memories_of frames.old (entries_of tables.now)) user
        (put_bytes (memory_of frames.old (table_at (entries_of tables.now) user)) target.addr bytes.now)) }
    ensures err { OnErr result (frames.new ≡ frames.old) }
    ensures fault { IfErr result (λ fault. fault.addr ≡ target.addr) }
    ensures size { length frames.new ≡ length frames.old }
{
    access::write_pages(
        user_entries(tables, user),
        frames,
        target.access,
        target.addr,
        bytes,
    )
}
