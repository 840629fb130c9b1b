//! Per-user adapters through which one user's instructions borrow the user's bytes and vector
//! state.
ghost use Rattle.std.specs.Prelude.{◌≡◌, ◌≤◌, ◌<◌, ◌-◌, length};

use hart::Vectors;
use lazy_context::Unit;
use lent_bytes::Edit;
use rv_model::{Access, Fault, Seat, User};
use std::alloc::Allocator;
use user_mem::Pool;
use vector_memory::UserBytes;

/// The bytes of one user in the pool of all users.
#[derive(Drop)]
pub(crate) struct UserMemory<'a, A: Allocator> {
    pub(crate) pool: &'a mut Pool<A>,
    pub(crate) user: User,
}

impl<A: Allocator> UserBytes for UserMemory<'_, A> {
    ghost use Rattle.user_mem.specs.Users.{memory_of_user, with_memory as with_user_memory};
    ghost use Rattle.std.proofs.Common.{ap};
    ghost use Rattle.monitor_machine.specs.UserAdapters.{same_memory, later_memory};

    ghost memory = { λ m. memory_of_user m.pool.now m.user };

    ghost with_memory = { λ m memory.
        record m { pool = record m.pool { now = with_user_memory m.pool.now m.user memory } } };

    ghost with_memory_same = { λ m.
        ap (λ p. record m { pool = record m.pool { now = p } }) (same_memory m.pool.now m.user) };

    ghost with_memory_twice = { λ m one two.
        ap (λ p. record m { pool = record m.pool { now = p } }) (later_memory m.pool.now m.user one two) };

    #[inline(always)]
    fn check(&self, addr: u64, len: usize, access: Access) -> Result<(), Fault> {
        self.pool.check(self.user, addr, len, access)
    }

    #[inline(always)]
    fn read(&self, addr: u64, access: Access, bytes: &mut [u8]) -> Result<(), Fault> {
        self.pool.read(self.user, addr, access, bytes)
    }

    #[inline(always)]
    fn try_read(&self, addr: u64, access: Access, bytes: &mut [u8]) -> bool {
        self.pool.try_read(self.user, addr, access, bytes)
    }

    #[inline(always)]
    fn lend(&self, addr: u64, access: Access) -> &[u8] {
        self.pool.lend(self.user, addr, access)
    }

    #[inline(always)]
    fn edit<E: Edit>(&mut self, addr: u64, edit: &E) -> Option<usize> {
        self.pool.edit(self.user, addr, edit)
    }

    #[tactic(auto, using(crate::specs::UserAdapters::memory_written))]
    #[inline(always)]
    fn try_write(&mut self, addr: u64, access: Access, bytes: &[u8]) -> bool {
        self.pool.try_write(self.user, addr, access, bytes)
    }

    #[tactic(auto, using(crate::specs::UserAdapters::memory_written))]
    #[inline(always)]
    fn write(&mut self, addr: u64, access: Access, bytes: &[u8]) -> Result<(), Fault> {
        self.pool.write(self.user, addr, access, bytes)
    }
}

/// The vector state of one user in the vector unit of all users.
#[derive(Drop)]
pub(crate) struct UserVectors<'a> {
    pub(crate) unit: &'a mut Unit,
    pub(crate) user: User,
}

impl Vectors for UserVectors<'_> {
    ghost use Rattle.lazy_context.specs.LazyUnit.{IsSettled, touched, with_seat};
    ghost use Rattle.std.proofs.Common.{ap};
    ghost use Rattle.monitor_machine.specs.UserAdapters.{settled_again, touched_again};

    ghost ready = { λ v. IsSettled v.unit.now };

    ghost lent = { λ v. (touched v.user v.unit.now).seat };

    ghost back = { λ v s.
        record v { unit = record v.unit { now = with_seat s (touched v.user v.unit.now) } } };

    ghost ready_again = { λ v s is given. settled_again v.user v.unit.now s is given };

    ghost lent_again = { λ v s is. ap (λ u. u.seat) (touched_again v.user v.unit.now s) };

    #[inline(always)]
    fn seat(&mut self) -> &mut Seat {
        let user = self.user;
        let unit = &mut *self.unit;
        unit.touch(user)
    }
}

/// State that the pool has a memory of the user, and do nothing.
pub(crate) fn memory_law<A: Allocator>(pool: &Pool<A>, user: User)
    ensures { user - 1 < length pool.now }
{
    let _ = pool.pages(user);
    let _ = user.index();
}
