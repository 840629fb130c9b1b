//! Accesses to a user's bytes. An access within one page is a single copy if the page is cached in the user's
//! translations; all others proceed page by page.
ghost use Rattle.std.specs.Prelude.{◌≡◌, ℕ, List, ◌+◌, ◌^◌, ◌≤◌, ◌↔◌, false, true, None, IsOk, IfErr, IfSome};
ghost use Rattle.std.specs.Prelude.{OnOk, OnErr, length};
ghost use Rattle.rv_model.specs.memory.Memory.{can_access, bytes_at, put_bytes};
ghost use Rattle.user_mem.specs.declared.entry.Entry.{Entry};
ghost use Rattle.user_mem.specs.Table.{memory_of, IsSorted, AreBelow, FitIn, AreSeparate, AreApart};
ghost use Rattle.user_mem.specs.Translations.{Translates};

use crate::entry::Entry;
use crate::frames::{FRAME_SIZE, copy_in, copy_out, paste};
use crate::table::is_access_allowed;
use crate::translations::Translations;
use lent_bytes::Edit;
use rv_model::{Access, Fault};

/// Return whether the access to all `len` bytes from `addr` on is allowed.
#[inline(always)]
pub(crate) fn is_allowed(
    entries: &[Entry],
    translations: &Translations,
    access: Access,
    addr: u64,
    len: usize,
) -> bool
    requires sorted { IsSorted entries.now }
    requires below { AreBelow entries.now }
    requires translated { Translates entries.now translations.now }
    ensures { (frames : List ℕ)
        → result ≡ can_access access (memory_of frames entries.now) addr len }
{
    match translations.place(access, addr, len) {
        Some(_) => true,
        None => is_access_allowed(entries, access, addr, len),
    }
}

/// Read bytes from `addr` on if a single cached page contains them and permits the access; return whether it does.
#[inline(always)]
pub(crate) fn try_read(
    entries: &[Entry],
    translations: &Translations,
    frames: &[u8],
    access: Access,
    addr: u64,
    buffer: &mut [u8],
) -> bool
    requires translated { Translates entries.now translations.now }
    requires fit { FitIn entries.now (length frames.now) }
    ensures allowed { result ≡ true
        → can_access access (memory_of frames.now entries.now) addr (length buffer.old) ≡ true }
    ensures value { result ≡ true
        → buffer.new ≡ bytes_at (memory_of frames.now entries.now) addr (length buffer.old) }
    ensures unchanged { result ≡ false → buffer.new ≡ buffer.old }
{
    if let Some(at) = translations.place(access, addr, buffer.len()) {
        buffer.copy_from_slice(&frames[at..at + buffer.len()]);
        return true;
    }
    false
}

/// Lend the bytes of the page that starts at `addr` if it is cached and permits the access, and otherwise no bytes.
#[inline(always)]
pub(crate) fn lend<'a>(
    entries: &[Entry],
    translations: &Translations,
    frames: &'a [u8],
    access: Access,
    addr: u64,
) -> &'a [u8]
    requires translated { Translates entries.now translations.now }
    requires fit { FitIn entries.now (length frames.now) }
    ensures end { addr + length result.now ≤ 2 ^ 64 }
    ensures allowed { can_access access (memory_of frames.now entries.now) addr (length result.now) ≡ true }
    ensures value { result.now ≡ bytes_at (memory_of frames.now entries.now) addr (length result.now) }
{
    match translations.place(access, addr, FRAME_SIZE) {
        Some(at) => &frames[at..at + FRAME_SIZE],
        None => &frames[..0],
    }
}

/// Read bytes from `addr` on, page by page, until the buffer is full. If a byte's access isn't allowed, return a fault
/// with `addr`.
pub(crate) fn read_pages(
    entries: &[Entry],
    frames: &[u8],
    access: Access,
    addr: u64,
    buffer: &mut [u8],
) -> Result<(), Fault>
    requires sorted { IsSorted entries.now }
    requires below { AreBelow entries.now }
    requires fit { FitIn entries.now (length frames.now) }
    ensures allowed { IsOk result
        ↔ (can_access access (memory_of frames.now entries.now) addr (length buffer.old) ≡ true) }
    ensures ok { OnOk result (buffer.new
        ≡ bytes_at (memory_of frames.now entries.now) addr (length buffer.old)) }
    ensures err { OnErr result (buffer.new ≡ buffer.old) }
    ensures fault { IfErr result (λ fault. fault.addr ≡ addr) }
{
    if !is_access_allowed(entries, access, addr, buffer.len()) {
        return Err(Fault { addr });
    }
    copy_out(entries, frames, addr, buffer);
    Ok(())
}

/// Return how many bytes from its address on a write looks up in one page: at least 8, so that the lookup of a number
/// is independent of its width.
#[inline(always)]
fn room_of(len: usize) -> usize
    ensures { len ≤ result }
{
    if len < 8 { 8 } else { len }
}

/// Write bytes from `addr` on if a single cached page has room for them and permits the access; return whether it does.
#[inline(always)]
pub(crate) fn try_write(
    entries: &[Entry],
    translations: &Translations,
    frames: &mut [u8],
    access: Access,
    addr: u64,
    bytes: &[u8],
) -> bool
    requires translated { Translates entries.now translations.now }
    requires fit { FitIn entries.now (length frames.old) }
    requires separate { AreSeparate entries.now }
    ensures allowed { result ≡ true
        → can_access access (memory_of frames.old entries.now) addr (length bytes.now) ≡ true }
    ensures value { result ≡ true
        → memory_of frames.new entries.now ≡ put_bytes (memory_of frames.old entries.now) addr bytes.now }
    ensures others { (other : List Entry) → AreApart entries.now other
        → memory_of frames.new other ≡ memory_of frames.old other }
    ensures unchanged { result ≡ false → frames.new ≡ frames.old }
    ensures size { length frames.new ≡ length frames.old }
{
    let room = room_of(bytes.len());
    if let Some(at) = translations.place(access, addr, room) {
        paste(frames, at, bytes);
        return true;
    }
    false
}

/// Pass the bytes of the page that starts at `addr` to an edit, if the page is cached and its bytes may be stored. Return
/// the edit's result; `None` changes nothing.
#[inline(always)]
pub(crate) fn edit_page<E: Edit>(
    entries: &[Entry],
    translations: &Translations,
    frames: &mut [u8],
    addr: u64,
    edit: &E,
) -> Option<usize>
    requires translated { Translates entries.now translations.now }
    requires fit { FitIn entries.now (length frames.old) }
    requires separate { AreSeparate entries.now }
    ensures changed { IfSome result (λ n. E.changes edit.now
        (memory_of frames.old entries.now) n (memory_of frames.new entries.now)) }
    ensures others { (other : List Entry) → AreApart entries.now other
        → memory_of frames.new other ≡ memory_of frames.old other }
    ensures unchanged { result ≡ None → frames.new ≡ frames.old }
    ensures size { length frames.new ≡ length frames.old }
{
    if let Some(at) = translations.place(Access::Store, addr, FRAME_SIZE) {
        let next = edit.edit(addr, &mut frames[at..at + FRAME_SIZE]);
        return Some(next);
    }
    None
}

/// Write bytes from `addr` on, page by page. If a byte's access isn't allowed, return a fault with `addr`, and write
/// nothing.
pub(crate) fn write_pages(
    entries: &[Entry],
    frames: &mut [u8],
    access: Access,
    addr: u64,
    bytes: &[u8],
) -> Result<(), Fault>
    requires sorted { IsSorted entries.now }
    requires below { AreBelow entries.now }
    requires fit { FitIn entries.now (length frames.old) }
    requires separate { AreSeparate entries.now }
    ensures allowed { IsOk result
        ↔ (can_access access (memory_of frames.old entries.now) addr (length bytes.now) ≡ true) }
    ensures ok { OnOk result (memory_of frames.new entries.now
        ≡ put_bytes (memory_of frames.old entries.now) addr bytes.now) }
    ensures others { (other : List Entry) → AreApart entries.now other
        → memory_of frames.new other ≡ memory_of frames.old other }
    ensures err { OnErr result (frames.new ≡ frames.old) }
    ensures fault { IfErr result (λ fault. fault.addr ≡ addr) }
    ensures size { length frames.new ≡ length frames.old }
{
    if !is_access_allowed(entries, access, addr, bytes.len()) {
        return Err(Fault { addr });
    }
    copy_in(entries, frames, addr, bytes);
    Ok(())
}
