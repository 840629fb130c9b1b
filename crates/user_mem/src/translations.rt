//! A direct-mapped cache of page translations, like a processor's translation lookaside buffer. For each kind of
//! access, a page's slot is its number modulo `PLACES`. An access within one page searches the page table only if the
//! slot doesn't hold that page.
ghost use Rattle.std.specs.Prelude.{◌≡◌, ◌+◌, ◌*◌, ◌%◌, ◌<◌, ◌≤◌, IfSome, List, Some};
ghost use Rattle.rv_model.specs.memory.Sizes.{page_size, page_limit, frame_count};
ghost use Rattle.user_mem.specs.declared.entry.Entry.{Entry};
ghost use Rattle.user_mem.specs.Table.{entry_at, IsSorted, AreBelow, FitIn};
ghost use Rattle.user_mem.specs.Translations.{Translates, AreTranslated, LiesAt, place_count};

use crate::entry::Entry;
use crate::frames::FRAME_SIZE;
use rv_model::{Access, PAGE_SIZE};

/// The number of slots. Pages whose numbers are equal modulo this share a slot.
const PLACES: usize = 256;

/// A page: its first address, and the index of its first byte in the frames. A slot that holds another slot's page is
/// empty.
#[derive(Clone, Copy)]
pub(crate) struct Translation {
    pub first: u64,
    pub start: usize,
}

/// The cached pages for one kind of access, by slot.
type Pages = [Translation; PLACES];

/// A user's cached pages, for each kind of access.
#[derive(Clone, Copy)]
pub(crate) struct Translations {
    pub fetch: Pages,
    pub load: Pages,
    pub store: Pages,
    pub monitor: Pages,
}

/// Return the slot of a page.
#[inline(always)]
fn place_of(page: u64) -> usize
    ensures { result ≡ page % place_count }
{
    (page % PLACES as u64) as usize
}

/// Return empty slots: each holds a page of another slot, page 1 in slot 0 and page 0 in all others.
fn no_pages() -> Pages
    ensures { (entries : List Entry) (access : Access) → AreTranslated entries access result }
{
    let mut pages = [Translation { first: 0, start: 0 }; PLACES];
    pages[0] = Translation {
        first: PAGE_SIZE,
        start: 0,
    };
    pages
}

/// Put an entry's page into its slot if its permissions permit the access.
fn put_page(pages: &mut Pages, entry: Entry, access: Access)
    requires below { entry.page < page_limit }
    requires fits { page_size * entry.frame + page_size ≤ page_size * frame_count }
    ensures { (entries : List Entry) → entry_at entries entry.page ≡ Some entry → AreTranslated entries access pages.old
        → AreTranslated entries access pages.new }
{
    if access.is_permitted(entry.permissions) {
        pages[place_of(entry.page)] = Translation {
            first: PAGE_SIZE * entry.page,
            start: FRAME_SIZE * entry.frame,
        };
    }
}

/// Replace the cached pages with those pages of a table that permit the access. Of pages that share a slot, the last one
/// is cached.
fn set_pages(pages: &mut Pages, entries: &[Entry], access: Access)
    requires sorted { IsSorted entries.now }
    requires below { AreBelow entries.now }
    requires fit { FitIn entries.now (page_size * frame_count) }
    ensures { AreTranslated entries.now access pages.new }
{
    *pages = no_pages();
    for index in 0..entries.len() {
        put_page(pages, entries[index], access);
    }
}

/// Return the index, in the bytes of all frames, of the first byte of an access, if one cached page contains all `len`
/// bytes.
#[inline(always)]
fn look_up(pages: &Pages, addr: u64, len: usize) -> Option<usize>
    ensures { (entries : List Entry) (access : Access) → AreTranslated entries access pages.now
        → IfSome result (λ at. LiesAt entries access addr len at) }
{
    let page = pages[place_of(addr / PAGE_SIZE)];
    let offset = addr.wrapping_sub(page.first);
    if 0 < len && len <= FRAME_SIZE && offset <= (FRAME_SIZE - len) as u64 {
        Some(page.start.wrapping_add(offset as usize))
    } else {
        None
    }
}

impl Translations {
    /// Return translations without pages.
    pub(crate) fn none() -> Translations
        ensures { (entries : List Entry) → Translates entries result }
    {
        Translations {
            fetch: no_pages(),
            load: no_pages(),
            store: no_pages(),
            monitor: no_pages(),
        }
    }

    /// Replace the cached pages with those of a table.
    pub(crate) fn set(&mut self, entries: &[Entry])
        requires sorted { IsSorted entries.now }
        requires below { AreBelow entries.now }
        requires fit { FitIn entries.now (page_size * frame_count) }
        ensures { Translates entries.now self.new }
    {
        set_pages(&mut self.fetch, entries, Access::Fetch);
        set_pages(&mut self.load, entries, Access::Load);
        set_pages(&mut self.store, entries, Access::Store);
        set_pages(&mut self.monitor, entries, Access::Monitor);
    }

    /// Return the cached pages for one kind of access.
    #[inline(always)]
    fn pages(&self, access: Access) -> &Pages
        ensures { (entries : List Entry) → Translates entries self.now → AreTranslated entries access result.now }
    {
        match access {
            Access::Fetch => &self.fetch,
            Access::Load => &self.load,
            Access::Store => &self.store,
            Access::Monitor => &self.monitor,
        }
    }

    /// Return the index, in the bytes of all frames, of the first byte of an access, if one cached page contains all
    /// `len` bytes and permits the access.
    #[inline(always)]
    pub(crate) fn place(&self, access: Access, addr: u64, len: usize) -> Option<usize>
        ensures { (entries : List Entry) → Translates entries self.now
            → IfSome result (λ at. LiesAt entries access addr len at) }
    {
        look_up(self.pages(access), addr, len)
    }
}
