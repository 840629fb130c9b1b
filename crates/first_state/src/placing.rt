//! Places bytes in the memory of a machine.
ghost use Rattle.std.specs.Prelude.{◌≡◌, ◌<◌, Err, Ok, MatchResult, OnOk, length, true};
ghost use Rattle.recording.specs.Machines.{state_of};
ghost use Rattle.rv_model.specs.machine.Setup.{user_count};
ghost use Rattle.rv_model.specs.declared.memory.Access.TheVariants.{Monitor};
ghost use Rattle.rv_model.specs.memory.Memory.{can_access};
ghost use Rattle.rv_model.specs.memory.Sizes.{address_end};
ghost use Rattle.first_state.specs.OwnMemory.{own_memory};
ghost use Rattle.first_state.specs.Placed.{in_memory, placed, with_byte, with_page_of};

use crate::fault::PlaceFault;
use crate::own_bytes::{OwnBytes, own_memory_law, own_user};
use recording::SingleUserMachine;
use rv_model::{ADDRESS_END, Access, PAGE_SIZE, Permissions};
use std::alloc::Allocator;

/// Map the page of an address with zeros, unless it is already mapped.
#[tactic(auto, using(crate::specs::Replaced::own_memory_there, crate::proofs::Pages::page_is_there))]
fn map_page_of<A: Allocator>(
    memory: &mut OwnBytes<A>,
    addr: u64,
    permissions: Permissions,
) -> Result<(), PlaceFault>
    ensures page { MatchResult result
        (λ _. with_page_of permissions addr (own_memory memory.old) ≡ Ok (own_memory memory.new))
        (λ fault. with_page_of permissions addr (own_memory memory.old) ≡ Err fault) }
    ensures mapped { OnOk result (can_access Monitor (own_memory memory.new) addr 1 ≡ true) }
    ensures below { OnOk result (addr < address_end) }
    ensures users { length memory.new.pool ≡ user_count }
{
    own_memory_law(&*memory);
    if addr >= ADDRESS_END {
        return Err(PlaceFault::Range);
    }
    if memory
        .pool
        .check(own_user(), addr, 1, Access::Monitor)
        .is_ok()
    {
        return Ok(());
    }
    match memory
        .pool
        .map(own_user(), addr / PAGE_SIZE, 1, permissions)
    {
        Ok(()) => Ok(()),
        Err(_) => Err(PlaceFault::Quota),
    }
}

/// Write a byte at an address, and map the address's page first if it isn't mapped.
#[tactic(auto, using(crate::specs::Replaced::own_memory_there))]
fn place_byte<A: Allocator>(
    memory: &mut OwnBytes<A>,
    addr: u64,
    permissions: Permissions,
    byte: u8,
) -> Result<(), PlaceFault>
    ensures placed { MatchResult result
        (λ _. with_byte permissions addr byte (own_memory memory.old) ≡ Ok (own_memory memory.new))
        (λ fault. with_byte permissions addr byte (own_memory memory.old) ≡ Err fault) }
    ensures below { OnOk result (addr < address_end) }
{
    map_page_of(memory, addr, permissions)?;
    let Ok(()) = memory
        .pool
        .write(own_user(), addr, Access::Monitor, &[byte])
    else {
        unreachable!();
    };
    Ok(())
}

/// Place bytes in a machine's memory from an address on, whatever the permissions of their pages are. Pages that aren't mapped are mapped
/// with zeros and these permissions.
///
/// Return `Range` if a byte's address isn't below `ADDRESS_END`, and `Quota` if more than `PAGE_QUOTA` pages would be mapped, whichever
/// occurs first. The bytes before that one are then already placed.
pub fn place_bytes<A: Allocator>(
    machine: &mut SingleUserMachine<OwnBytes<A>>,
    addr: u64,
    permissions: Permissions,
    bytes: &[u8],
) -> Result<(), PlaceFault>
    ensures placed { MatchResult result
        (λ _. placed permissions addr bytes.now (own_memory machine.old.memory) ≡ Ok (own_memory machine.new.memory))
        (λ fault. placed permissions addr bytes.now (own_memory machine.old.memory) ≡ Err fault) }
    ensures others { state_of own_memory machine.new
        ≡ in_memory (state_of own_memory machine.old) (own_memory machine.new.memory) }
{
    let mut at = addr;
    for byte in bytes {
        if let Err(fault) = place_byte(&mut machine.memory, at, permissions, *byte) {
            return Err(fault);
        }
        at += 1;
    }
    Ok(())
}
