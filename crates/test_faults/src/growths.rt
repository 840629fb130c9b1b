//! Creates pools and machines in arenas with too little memory, and in one with just enough. A machine allocates the
//! frames of its pool, which are 8 MiB, and nine lists of a few hundred bytes together. The arenas of each size below
//! `SMALL` refuse each of these lists in turn, and an arena that lacks one byte refuses the frames.

use crate::tally::Tally;
use anyhow::{Result, ensure};
use bumpalo::Bump;
use std::alloc::Global;
use user_mem::{NoMemory, Pool};
use vec_monitor::{Machine, NewFault};

/// Ticks in a time slice.
const QUANTUM: usize = 100;

/// A number of bytes that is too small for the frames of a pool, and enough for the lists.
const SMALL: usize = 2048;

/// A number of bytes that is more than enough for a machine.
pub(crate) const LARGE: usize = 1 << 24;

/// Zeros to fill an arena with.
const FILLING: [u8; 8192] = [0; 8192];

/// An arena with this number of bytes left, which can't grow.
pub(crate) fn arena_with(alloc: Global, bytes: usize) -> Result<Bump> {
    let arena = Bump::try_with_capacity(alloc, bytes)?;
    arena.set_allocation_limit(Some(0));
    let over = arena.chunk_capacity().saturating_sub(bytes);
    arena.try_alloc_slice_copy(FILLING.get(..over).unwrap_or_default())?;
    ensure!(arena.chunk_capacity() == bytes, "an arena of another size");
    Ok(arena)
}

/// The number of bytes that a machine allocates.
pub(crate) fn machine_size(alloc: Global) -> Result<usize> {
    let arena = arena_with(alloc, LARGE)?;
    let _machine = Machine::new(&arena, QUANTUM, &[])?;
    Ok(LARGE.saturating_sub(arena.chunk_capacity()))
}

/// The number of bytes that a pool allocates.
fn pool_size(alloc: Global) -> Result<usize> {
    let arena = arena_with(alloc, LARGE)?;
    let _pool = Pool::new(&arena).ok();
    Ok(LARGE.saturating_sub(arena.chunk_capacity()))
}

/// Whether an arena of this size refuses a machine for lack of memory, and a quantum of 0 is still refused as such.
fn is_machine_refused(alloc: Global, bytes: usize) -> Result<bool> {
    let arena = arena_with(alloc, bytes)?;
    Ok(
        matches!(Machine::new(&arena, QUANTUM, &[]), Err(NewFault::NoMemory))
            && matches!(Machine::new(&arena, 0, &[]), Err(NewFault::Quantum)),
    )
}

/// Whether a machine can be created in an arena with this number of bytes.
fn is_there_machine(alloc: Global, bytes: usize) -> Result<bool> {
    let arena = arena_with(alloc, bytes)?;
    Ok(Machine::new(&arena, QUANTUM, &[]).is_ok())
}

/// Creates machines with too little memory, and with just enough.
pub(crate) fn machines(alloc: Global) -> Result<Tally> {
    let size = machine_size(alloc)?;
    let mut tally = Tally::new();
    for bytes in 0..SMALL {
        tally.add(is_machine_refused(alloc, bytes)?);
    }
    tally.add(is_machine_refused(alloc, size.saturating_sub(1))?);
    tally.add(is_there_machine(alloc, size)?);
    Ok(tally)
}

/// Whether a pool is refused for lack of memory in an arena with this number of bytes.
fn is_pool_refused(alloc: Global, bytes: usize) -> Result<bool> {
    let arena = arena_with(alloc, bytes)?;
    Ok(matches!(Pool::new(&arena), Err(NoMemory)))
}

/// Whether a pool can be created in an arena with this number of bytes.
fn is_there_pool(alloc: Global, bytes: usize) -> Result<bool> {
    let arena = arena_with(alloc, bytes)?;
    Ok(Pool::new(&arena).is_ok())
}

/// Creates pools with too little memory, and with just enough.
pub(crate) fn pools(alloc: Global) -> Result<Tally> {
    let size = pool_size(alloc)?;
    let mut tally = Tally::new();
    tally.add(is_pool_refused(alloc, 0)?);
    tally.add(is_pool_refused(alloc, SMALL)?);
    tally.add(is_pool_refused(alloc, size.saturating_sub(1))?);
    tally.add(is_there_pool(alloc, size)?);
    Ok(tally)
}
