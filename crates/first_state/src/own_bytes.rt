//! Memory of the only user of a machine.
ghost use Rattle.std.specs.Prelude.{◌≡◌, length};
ghost use Rattle.rv_model.specs.machine.Setup.{user_count};

use lent_bytes::Edit;
use rv_model::{Access, Fault, User};
use std::alloc::{Allocator, Global};
use user_mem::Pool;
use vector_memory::UserBytes;

/// Memory of a machine's only user, the first of a pool. Only `enter` allocates.
#[derive(Drop)]
pub struct OwnBytes<A: Allocator = Global> {
    pub(crate) pool: Pool<A>,
}

/// Return the user of the pool whose memory this is.
pub(crate) fn own_user() -> User
    ensures { result ≡ 1 }
{
    User::at_index(0)
}

/// Law: the pool has a memory for each user. The function does nothing.
pub(crate) fn own_memory_law<A: Allocator>(memory: &OwnBytes<A>)
    ensures { length memory.now.pool ≡ user_count }
{
    let _ = memory.pool.pages(own_user());
}

impl<A: Allocator> UserBytes for OwnBytes<A> {
    ghost use Rattle.std.proofs.Common.{ap};
    ghost use Rattle.first_state.specs.OwnMemory.{own_memory, with_own_memory};
    ghost use Rattle.first_state.specs.Replaced.{same_memory, later_memory};

    ghost memory = { own_memory };

    ghost with_memory = { with_own_memory };

    ghost with_memory_same = { λ m. ap (λ p. record m { pool = p }) (same_memory m.pool 1) };

    ghost with_memory_twice = { λ m one two.
        ap (λ p. record m { pool = p }) (later_memory m.pool 1 one two) };

    #[inline(always)]
    fn check(&self, addr: u64, len: usize, access: Access) -> Result<(), Fault> {
        self.pool.check(own_user(), addr, len, access)
    }

    #[inline(always)]
    fn read(&self, addr: u64, access: Access, bytes: &mut [u8]) -> Result<(), Fault> {
        self.pool.read(own_user(), addr, access, bytes)
    }

    #[inline(always)]
    fn try_read(&self, addr: u64, access: Access, bytes: &mut [u8]) -> bool {
        self.pool.try_read(own_user(), addr, access, bytes)
    }

    #[inline(always)]
    fn lend(&self, addr: u64, access: Access) -> &[u8] {
        self.pool.lend(own_user(), addr, access)
    }

    #[inline(always)]
    fn edit<E: Edit>(&mut self, addr: u64, edit: &E) -> Option<usize> {
        self.pool.edit(own_user(), addr, edit)
    }

    #[tactic(auto, using(crate::specs::Replaced::own_memory_there))]
    #[inline(always)]
    fn try_write(&mut self, addr: u64, access: Access, bytes: &[u8]) -> bool {
        self.pool.try_write(own_user(), addr, access, bytes)
    }

    #[tactic(auto, using(crate::specs::Replaced::own_memory_there))]
    #[inline(always)]
    fn write(&mut self, addr: u64, access: Access, bytes: &[u8]) -> Result<(), Fault> {
        self.pool.write(own_user(), addr, access, bytes)
    }
}
