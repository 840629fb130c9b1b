//! The memory of one user, which instructions borrow.
use lent_bytes::Edit;
use rv_model::{Access, Fault, PAGE_SIZE, Permissions, USER_COUNT, User};
use std::alloc::Global;
use user_mem::Pool;
use vector_memory::UserBytes;

/// The number of the page with the executed word.
const CODE_PAGE: u64 = 16;

/// The address of the executed word.
pub(crate) const CODE: u64 = CODE_PAGE * PAGE_SIZE;

/// The memory of one user in a pool.
#[derive(Drop)]
pub(crate) struct UserMemory {
    pub pool: Pool,
    pub user: User,
}

impl UserMemory {
    /// Memory of one page, which is executable, but not readable or writable. `None` if memory is refused.
    pub(crate) fn new(alloc: Global) -> Option<UserMemory> {
        let mut pool = Pool::new(alloc).ok()?;
        let user = User::new(1)?;
        let permissions = Permissions {
            read: false,
            write: false,
            execute: true,
        };
        pool.map(user, CODE_PAGE, 1, permissions).ok()?;
        Some(UserMemory { pool, user })
    }

    /// Writes a word at `CODE`. `None` if the write is refused.
    pub(crate) fn set_word(&mut self, word: u32) -> Option<()> {
        self.pool
            .write(self.user, CODE, Access::Monitor, &word.to_le_bytes())
            .ok()
    }
}

impl UserBytes for UserMemory {
    ghost use Rattle.std.proofs.Common.{ap};
    ghost use Rattle.std.specs.FinMap.{empty};
    ghost use Rattle.std.specs.Prelude.{◌-◌};
    ghost use Rattle.std.proofs.lemmas.List.{set-get_or, set-set};
    ghost use Rattle.user_mem.specs.Users.{memory_of_user, with_memory as with_user_memory};

    ghost memory = { λ m. memory_of_user m.pool m.user };

    ghost with_memory = { λ m memory. record m { pool = with_user_memory m.pool m.user memory } };

    ghost with_memory_same = { λ m. ap (λ p. record m { pool = p }) (set-get_or m.pool (m.user - 1) empty) };

    ghost with_memory_twice = { λ m one two. ap (λ p. record m { pool = p }) (set-set m.pool (m.user - 1) one two) };

    fn check(&self, addr: u64, len: usize, access: Access) -> Result<(), Fault> {
        self.pool.check(self.user, addr, len, access)
    }

    fn read(&self, addr: u64, access: Access, bytes: &mut [u8]) -> Result<(), Fault> {
        self.pool.read(self.user, addr, access, bytes)
    }

    fn lend(&self, addr: u64, access: Access) -> &[u8] {
        self.pool.lend(self.user, addr, access)
    }

    fn edit<E: Edit>(&mut self, addr: u64, edit: &E) -> Option<usize> {
        self.pool.edit(self.user, addr, edit)
    }

    #[tactic(auto, using(user_mem::proofs::UserLaws::replaces_own))]
    fn write(&mut self, addr: u64, access: Access, bytes: &[u8]) -> Result<(), Fault> {
        // The pool has memory for each user.
        prove!(self.user.index() < USER_COUNT);
        self.pool.write(self.user, addr, access, bytes)
    }
}
