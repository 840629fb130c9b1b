//! The memories of all users.
ghost use Rattle.std.specs.Prelude.{◌≡◌, ◌<◌, ◌≤◌, ◌+◌, ◌*◌, ◌^◌, ◌↔◌, [], false, true, None, IsOk, IfOk, IfErr, IfSome};
ghost use Rattle.std.specs.Prelude.{OnErr, OnOk, length, replicate};
ghost use Rattle.std.specs.FinMap.{empty};
ghost use Rattle.rv_model.specs.memory.Memory.{can_access, bytes_at, put_bytes, with_pages, page_count};
ghost use Rattle.rv_model.specs.memory.Memory.{any_page_mapped, map_refusal};
ghost use Rattle.rv_model.specs.memory.Sizes.{page_quota, page_limit};
ghost use Rattle.rv_model.specs.machine.Setup.{user_count};
ghost use Rattle.user_mem.specs.Users.{no_memories, memory_of_user, with_memory};
ghost use Rattle.user_mem.specs.Pool.{entries_of};

use crate::access::{is_allowed, lend, read_pages, try_read};
use crate::frames::FRAME_SIZE;
use crate::free::{FreeFrames, all_free};
use crate::table::refusal;
use crate::translations::Translations;
use crate::users::{
    AllTranslations, PageRange, Tables, Target, drop_pages, edit_user, map_user, translate_user,
    try_write_user, user_entries, write_user,
};
use arrayvec::ArrayVec;
use lent_bytes::Edit;
use rv_model::{Access, FRAME_COUNT, Fault, MapRefusal, Permissions, USER_COUNT, User};
use std::alloc::{AllocError, Allocator, Global};
use std::marker::Model;

/// The error if the pool's frames can't be allocated.
#[derive(Clone, Copy, Debug, PartialEq, Eq)]
pub struct NoMemory;

/// The frames of all users, each user's mapped pages, and the free frames.
///
/// A page has `PAGE_SIZE` bytes. A user has at most `PAGE_QUOTA` pages, and the `FRAME_COUNT` frames are enough for the
/// quotas of all users. Only `new` allocates memory.
///
/// A page's permissions to read, write and execute are those of a leaf page-table entry (Privileged Architecture,
/// section 4.3.1). The monitor may access any mapped page.
#[derive(Drop)]
pub struct Pool<A: Allocator = Global> {
    tables: Tables,
    translations: AllTranslations,
    free: FreeFrames,
    frames: Vec<u8, A>,
}

impl<A: Allocator> Model for Pool<A> {
    ghost use Rattle.std.specs.Prelude.{List};
    ghost use Rattle.std.specs.Coded.{coded_list};
    ghost use Rattle.rv_model.specs.memory.Memory.{Memory};
    ghost use Rattle.rv_model.specs.lending.StoredMemory.{coded_memory};
    ghost use Rattle.user_mem.specs.Pool.{entries_of, memories_of, IsPool};
    ghost use Rattle.user_mem.specs.Translations.{AllTranslate};

    ghost Value = { List Memory };

    ghost coded = { coded_list coded_memory };

    ghost view = { λ p. memories_of p.frames.items (entries_of p.tables) };

    ghost invariant = { λ p.
        IsPool (entries_of p.tables) p.free.items p.frames.items × AllTranslate (entries_of p.tables) p.translations };
}

impl<A: Allocator> Pool<A> {
    /// Return a pool in which each user's memory is empty.
    // Out of line: inlined, it adds copies of the pool, of 197 KB each, to the caller's stack frame.
    #[inline(never)]
    pub fn new(alloc: A) -> Result<Self, NoMemory>
        ensures { IfOk result (λ pool. pool ≡ no_memories) }
    {
        let Ok(frames) = zeros(alloc, FRAME_COUNT * FRAME_SIZE) else {
            return Err(NoMemory);
        };
        Ok(Pool {
            tables: no_tables(),
            translations: [Translations::none(); USER_COUNT],
            free: all_free(),
            frames,
        })
    }

    /// Map `count` pages of zeros for a user, starting with page number `page` (page p starts at address `PAGE_SIZE`
    /// times p). The pages must end at or below `ADDRESS_END`.
    ///
    /// Return `Quota` if the user would have more than `PAGE_QUOTA` pages, else `AlreadyMapped` if one of the pages is
    /// mapped. After an error, the pool is unchanged.
    pub fn map(
        &mut self,
        user: User,
        page: u64,
        count: usize,
        permissions: Permissions,
    ) -> Result<(), MapRefusal>
        requires { page + count ≤ page_limit }
        ensures users { length self.old ≡ user_count }
        ensures accepted { IsOk result
            ↔ (map_refusal (memory_of_user self.old user) page count ≡ None) }
        ensures refused { IfErr result (λ refusal.
            map_refusal (memory_of_user self.old user) page count ≡ Some refusal) }

        ensures quota { (result ≡ Err MapRefusal.Quota)
            ↔ (page_quota < page_count (memory_of_user self.old user) + count) }
        ensures already_mapped { (result ≡ Err MapRefusal.AlreadyMapped)
            ↔ ((page_count (memory_of_user self.old user) + count ≤ page_quota)
            × (any_page_mapped (memory_of_user self.old user) page count ≡ true)) }

        ensures ok { OnOk result (self.new ≡ with_memory self.old user
            (with_pages (memory_of_user self.old user) page count permissions)) }
        ensures err { OnErr result (self.new ≡ self.old) }
    {
        let user = user.index();
        if let Some(refusal) = refusal(user_entries(&self.tables, user), page, count) {
            return Err(refusal);
        }
        let pages = PageRange { first: page, count };
        map_user(
            &mut self.tables,
            user,
            &mut self.free,
            self.frames.as_mut_slice(),
            pages,
            permissions,
        );
        translate_user(&mut self.translations, &self.tables, user);
        Ok(())
    }

    /// Unmap all pages of a user.
    pub fn drop_user(&mut self, user: User)
        ensures users { length self.old ≡ user_count }
        ensures dropped { self.new ≡ with_memory self.old user empty }
    {
        let user = user.index();
        drop_pages(
            &mut self.tables,
            user,
            &mut self.free,
            self.frames.as_slice(),
        );
        translate_user(&mut self.translations, &self.tables, user);
    }

    /// Return the number of a user's pages, at most `PAGE_QUOTA`.
    pub fn pages(&self, user: User) -> usize
        ensures users { length self.now ≡ user_count }
        ensures value { result ≡ page_count (memory_of_user self.now user) }
    {
        user_entries(&self.tables, user.index()).len()
    }

    /// Check that the access to each of `len` bytes from `addr` on is allowed; otherwise return a fault with the
    /// address `addr`. An access to no bytes is allowed at any address.
    #[inline(always)]
    pub fn check(&self, user: User, addr: u64, len: usize, access: Access) -> Result<(), Fault>
        ensures users { length self.now ≡ user_count }
        ensures allowed { IsOk result
            ↔ (can_access access (memory_of_user self.now user) addr len ≡ true) }
        ensures fault { IfErr result (λ fault. fault.addr ≡ addr) }
    {
        let user = user.index();
        let entries = user_entries(&self.tables, user);
        if is_allowed(entries, &self.translations[user], access, addr, len) {
            Ok(())
        } else {
            Err(Fault { addr })
        }
    }

    /// Read as `read` does if a single lookup in the user's translations suffices; return whether it does.
    #[inline(always)]
    pub fn try_read(&self, user: User, addr: u64, access: Access, buffer: &mut [u8]) -> bool
        ensures users { length self.now ≡ user_count }
        ensures allowed { result ≡ true
            → can_access access (memory_of_user self.now user) addr (length buffer.old) ≡ true }
        ensures value { result ≡ true
            → buffer.new ≡ bytes_at (memory_of_user self.now user) addr (length buffer.old) }
        ensures unchanged { result ≡ false → buffer.new ≡ buffer.old }
    {
        let user = user.index();
        let entries = user_entries(&self.tables, user);
        let frames = self.frames.as_slice();
        try_read(
            entries,
            &self.translations[user],
            frames,
            access,
            addr,
            buffer,
        )
    }

    /// Lend bytes of a user from `addr` on, each of which the access is allowed to: those of the page that starts there, if
    /// a single lookup in the user's translations finds it, and otherwise none.
    #[inline(always)]
    pub fn lend(&self, user: User, addr: u64, access: Access) -> &[u8]
        ensures users { length self.now ≡ user_count }
        ensures end { addr + length result.now ≤ 2 ^ 64 }
        ensures allowed { can_access access (memory_of_user self.now user) addr (length result.now) ≡ true }
        ensures value { result.now ≡ bytes_at (memory_of_user self.now user) addr (length result.now) }
    {
        let user = user.index();
        let entries = user_entries(&self.tables, user);
        let frames = self.frames.as_slice();
        lend(entries, &self.translations[user], frames, access, addr)
    }

    /// Read a user's bytes from `addr` on until the buffer is full. If `check` would fail, return its fault, and leave
    /// the buffer unchanged.
    #[inline(always)]
    pub fn read(
        &self,
        user: User,
        addr: u64,
        access: Access,
        buffer: &mut [u8],
    ) -> Result<(), Fault>
        ensures users { length self.now ≡ user_count }
        ensures allowed { IsOk result
            ↔ (can_access access (memory_of_user self.now user) addr (length buffer.old) ≡ true) }
        ensures ok { OnOk result (buffer.new
            ≡ bytes_at (memory_of_user self.now user) addr (length buffer.old)) }
        ensures err { OnErr result (buffer.new ≡ buffer.old) }
        ensures fault { IfErr result (λ fault. fault.addr ≡ addr) }
    {
        if self.try_read(user, addr, access, buffer) {
            return Ok(());
        }
        let user = user.index();
        let entries = user_entries(&self.tables, user);
        let frames = self.frames.as_slice();
        read_pages(entries, frames, access, addr, buffer)
    }

    /// Write as `write` does if a single lookup in the user's translations suffices; return whether it does.
    #[inline(always)]
    pub fn try_write(&mut self, user: User, addr: u64, access: Access, bytes: &[u8]) -> bool
        ensures users { length self.old ≡ user_count }
        ensures allowed { result ≡ true
            → can_access access (memory_of_user self.old user) addr (length bytes.now) ≡ true }
        ensures value { result ≡ true → self.new ≡ with_memory self.old user
            (put_bytes (memory_of_user self.old user) addr bytes.now) }
        ensures unchanged { result ≡ false → self.new ≡ self.old }
    {
        try_write_user(
            &self.tables,
            &self.translations,
            user.index(),
            self.frames.as_mut_slice(),
            Target { access, addr },
            bytes,
        )
    }

    /// Pass bytes of a user from `addr` on, each of which may be stored, to an edit: those of the page that starts there,
    /// if a single lookup in the user's translations finds it. Return the edit's result; `None` changes nothing.
    #[inline(always)]
    pub fn edit<E: Edit>(&mut self, user: User, addr: u64, edit: &E) -> Option<usize>
        ensures users { length self.old ≡ user_count }
        ensures changed { IfSome result (λ n. E.changes edit.now
            (memory_of_user self.old user) n (memory_of_user self.new user)) }
        ensures others { self.new ≡ with_memory self.old user (memory_of_user self.new user) }
        ensures unchanged { result ≡ None → self.new ≡ self.old }
    {
        edit_user(
            &self.tables,
            &self.translations,
            user.index(),
            self.frames.as_mut_slice(),
            addr,
            edit,
        )
    }

    /// Write a user's bytes from `addr` on. If `check` would fail, return its fault, and leave the memory unchanged.
    #[inline(always)]
    pub fn write(
        &mut self,
        user: User,
        addr: u64,
        access: Access,
        bytes: &[u8],
    ) -> Result<(), Fault>
        ensures users { length self.old ≡ user_count }
        ensures allowed { IsOk result
            ↔ (can_access access (memory_of_user self.old user) addr (length bytes.now) ≡ true) }
        ensures ok { OnOk result (self.new ≡ with_memory self.old user
            (put_bytes (memory_of_user self.old user) addr bytes.now)) }
        ensures err { OnErr result (self.new ≡ self.old) }
        ensures fault { IfErr result (λ fault. fault.addr ≡ addr) }
    {
        let user = user.index();
        let target = Target { access, addr };
        let frames = self.frames.as_mut_slice();
        if try_write_user(
            &self.tables,
            &self.translations,
            user,
            frames,
            target,
            bytes,
        ) {
            return Ok(());
        }
        write_user(&self.tables, user, frames, target, bytes)
    }
}

/// Return `count` zeros.
fn zeros<A: Allocator>(alloc: A, count: usize) -> Result<Vec<u8, A>, AllocError>
    ensures { IfOk result (λ bytes. length bytes.items ≡ count) }
{
    vec![in alloc; 0; count]
}

/// Return an empty table for each user.
fn no_tables() -> Tables
    ensures { entries_of result ≡ replicate user_count [] }
{
    [
        ArrayVec::new(),
        ArrayVec::new(),
        ArrayVec::new(),
        ArrayVec::new(),
        ArrayVec::new(),
        ArrayVec::new(),
        ArrayVec::new(),
        ArrayVec::new(),
    ]
}
