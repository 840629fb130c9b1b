//! Reads the bytes of places.
ghost use Rattle.std.specs.Prelude.{◌≡◌, ◌≤◌, ◌++◌, flat_map, length, IfErr, OnOk};
ghost use Rattle.recording.specs.declared.fault.RecordFault.TheVariants.{Unmapped};
ghost use Rattle.rv_model.specs.declared.memory.Access.TheVariants.{Monitor};
ghost use Rattle.rv_model.specs.memory.Memory.{bytes_at, can_access};
ghost use Rattle.memory_changes.specs.Changes.{held};

use crate::place::{MAX_LENGTH, Place, SMALL_LENGTH};
use recording::RecordFault;
use rv_model::Access;
use std::alloc::Allocator;
use vector_memory::UserBytes;

/// Fill the buffer with the bytes from an address on, whatever the permissions of their pages are. Return `Unmapped` if a byte isn't
/// mapped.
#[inline(always)]
pub(crate) fn read_bytes<M: UserBytes>(
    memory: &M,
    addr: u64,
    bytes: &mut [u8],
) -> Result<(), RecordFault>
    ensures bytes { OnOk result (bytes.new ≡ bytes_at (M.memory memory.now) addr (length bytes.old)) }
    ensures unmapped { IfErr result (λ fault. fault ≡ Unmapped) }
{
    if memory.try_read(addr, Access::Monitor, bytes) {
        return Ok(());
    }
    match memory.read(addr, Access::Monitor, bytes) {
        Ok(()) => Ok(()),
        Err(_) => Err(RecordFault::Unmapped),
    }
}

/// Append the bytes of a place, which are read into a buffer first.
#[inline(always)]
fn add_bytes<M: UserBytes, A: Allocator>(
    memory: &M,
    place: &Place,
    buffer: &mut [u8],
    bytes: &mut Vec<u8, A>,
) -> Result<(), RecordFault>
    requires { place.now.len ≤ length buffer.old }
    ensures bytes { OnOk result (bytes.new.items ≡ bytes.old.items ++ held (M.memory memory.now) place.now) }
    ensures unmapped { IfErr result (λ fault. fault ≡ Unmapped) }
{
    let part = &mut buffer[..place.len];
    read_bytes(memory, place.addr, part)?;
    // `WatchedPlaces::new` reserves room for all places, so this never fails.
    match bytes.extend_from_slice(part) {
        Ok(()) => Ok(()),
        Err(_) => Err(RecordFault::Unmapped),
    }
}

/// Append the bytes of a place. A small place needs only a small buffer, which costs less.
#[inline(always)]
fn add_place<M: UserBytes, A: Allocator>(
    memory: &M,
    place: &Place,
    bytes: &mut Vec<u8, A>,
) -> Result<(), RecordFault>
    ensures bytes { OnOk result (bytes.new.items ≡ bytes.old.items ++ held (M.memory memory.now) place.now) }
    ensures unmapped { IfErr result (λ fault. fault ≡ Unmapped) }
{
    if place.len <= SMALL_LENGTH {
        return add_bytes(memory, place, &mut [0; SMALL_LENGTH], bytes);
    }
    add_bytes(memory, place, &mut [0; MAX_LENGTH], bytes)
}

/// Read the bytes of places, in order.
#[tactic(auto, using(crate::proofs::Lists::first_more))]
#[inline(always)]
pub(crate) fn read_places<M: UserBytes, A: Allocator>(
    memory: &M,
    places: &[Place],
    bytes: &mut Vec<u8, A>,
) -> Result<(), RecordFault>
    ensures bytes { OnOk result (bytes.new.items ≡ flat_map (held (M.memory memory.now)) places.now) }
    ensures unmapped { IfErr result (λ fault. fault ≡ Unmapped) }
{
    bytes.clear();
    for place in places {
        add_place(memory, place, bytes)?;
    }
    Ok(())
}

/// Return whether each byte of a place is mapped.
pub fn has_memory<M: UserBytes>(memory: &M, place: &Place) -> bool
    ensures { result ≡ can_access Monitor (M.memory memory.now) place.now.addr place.now.len }
{
    memory.check(place.addr, place.len, Access::Monitor).is_ok()
}
