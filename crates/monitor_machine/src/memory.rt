//! Execution of commands on a user's memory.
ghost use Rattle.std.specs.Prelude.{◌≡◌, ◌≤◌, length};
ghost use Rattle.rv_model.specs.commands.Memory.{why_not_mapped as reason_of, maps, pokes, peeks, memory_command};
ghost use Rattle.user_mem.specs.Users.{memory_of_user, with_memory};
ghost use Rattle.monitor_machine.specs.CommandOutcomes.{LeavesMemory, PrintsFromMemory};

use crate::answers::{accept, refuse};
use crate::user_adapters::memory_law;
use monitor_cmds::{Reply, Tag};
use rv_model::{
    Access, ByteString, Count, MapRefusal, MemoryCommand, PageRange, Permissions, Refusal, User,
};
use std::alloc::Allocator;
use user_mem::Pool;

/// Maximum number of bytes that one command shows.
const MAX_SHOWN: usize = 256;

/// Execute a command on the memory of a user who has entered, and replace the reply.
#[tactic(auto, unfolding(rv_model::specs::commands::Memory::memory_command), using(crate::specs::UserAdapters::same_memory))]
pub(crate) fn execute<A: Allocator>(
    pool: &mut Pool<A>,
    user: User,
    command: &MemoryCommand,
    reply: &mut Reply,
)
    ensures next { LeavesMemory (memory_command command.now) pool.old pool.new user }
    ensures others { pool.new ≡ with_memory pool.old user (memory_of_user pool.new user) }
    ensures reply { PrintsFromMemory (memory_command command.now) pool.old user reply.new }
{
    match command {
        MemoryCommand::Map { pages, permissions } => map(pool, user, *pages, *permissions, reply),
        MemoryCommand::Poke { addr, bytes } => poke(pool, user, *addr, bytes, reply),
        MemoryCommand::Peek { addr, count } => peek(pool, user, *addr, *count, reply),
    }
}

/// Return the refusal of a command whose pages can't be mapped.
fn why_not_mapped(refusal: MapRefusal) -> Refusal
    ensures { result ≡ reason_of refusal }
{
    match refusal {
        MapRefusal::Quota => Refusal::Quota,
        MapRefusal::AlreadyMapped => Refusal::AlreadyMapped,
    }
}

/// `map`: map pages of zeros.
#[tactic(auto, using(crate::proofs::Steps::mapping))]
fn map<A: Allocator>(
    pool: &mut Pool<A>,
    user: User,
    pages: PageRange,
    permissions: Permissions,
    reply: &mut Reply,
)
    ensures next { LeavesMemory (maps pages permissions) pool.old pool.new user }
    ensures others { pool.new ≡ with_memory pool.old user (memory_of_user pool.new user) }
    ensures reply { PrintsFromMemory (maps pages permissions) pool.old user reply.new }
{
    // For the proof alone: the pool has a memory of the user.
    memory_law(&*pool, user);
    match pool.map(user, pages.first(), pages.count(), permissions) {
        Ok(()) => accept(reply, user),
        Err(refusal) => refuse(reply, user, why_not_mapped(refusal)),
    }
}

/// `poke`: write bytes to mapped pages, regardless of their permissions.
#[tactic(auto, using(crate::proofs::Steps::poking))]
fn poke<A: Allocator>(
    pool: &mut Pool<A>,
    user: User,
    addr: u64,
    bytes: &ByteString,
    reply: &mut Reply,
)
    ensures next { LeavesMemory (pokes addr bytes.now) pool.old pool.new user }
    ensures others { pool.new ≡ with_memory pool.old user (memory_of_user pool.new user) }
    ensures reply { PrintsFromMemory (pokes addr bytes.now) pool.old user reply.new }
{
    // For the proof alone: the pool has a memory of the user.
    memory_law(&*pool, user);
    match pool.write(user, addr, Access::Monitor, bytes.as_slice()) {
        Ok(()) => accept(reply, user),
        Err(_) => refuse(reply, user, Refusal::NotMapped),
    }
}

/// Show the bytes of mapped pages that fill `buffer`.
#[tactic(auto, using(crate::proofs::MemoryOutcomes::peeks_accepted, crate::proofs::MemoryOutcomes::peeks_refused))]
fn show_bytes<A: Allocator>(
    pool: &Pool<A>,
    user: User,
    addr: u64,
    buffer: &mut [u8],
    reply: &mut Reply,
)
    requires few { length buffer.old ≤ 256 }
    ensures next { LeavesMemory (peeks addr (length buffer.old)) pool.now pool.now user }
    ensures reply { PrintsFromMemory (peeks addr (length buffer.old)) pool.now user reply.new }
{
    match pool.read(user, addr, Access::Monitor, buffer) {
        Ok(()) => {
            reply.clear();
            monitor_cmds::peek_line(reply, Tag::User(user), addr, buffer);
        }
        Err(_) => refuse(reply, user, Refusal::NotMapped),
    }
}

/// `peek`: show bytes of mapped pages, regardless of their permissions.
fn peek<A: Allocator>(
    pool: &Pool<A>,
    user: User,
    addr: u64,
    count: Count<MAX_SHOWN>,
    reply: &mut Reply,
)
    ensures next { LeavesMemory (peeks addr count) pool.now pool.now user }
    ensures reply { PrintsFromMemory (peeks addr count) pool.now user reply.new }
{
    let mut buffer = [0; MAX_SHOWN];
    show_bytes(pool, user, addr, &mut buffer[..count.get()], reply);
}
