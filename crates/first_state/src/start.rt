//! Initial machine of a run.
ghost use Rattle.std.specs.Prelude.{◌≡◌, ◌↔◌, None, Some, IfErr, IfOk, IsOk, OnErr, OnOk};
ghost use Rattle.rv_model.specs.scalar.Registers.{initial_scalar, with_register};
ghost use Rattle.rv_model.specs.vector.State.{initial_vector};
ghost use Rattle.recording.specs.Machines.{state_of};
ghost use Rattle.first_state.specs.Loaded.{entered, load_fault, loaded};
ghost use Rattle.first_state.specs.OwnMemory.{own_memory};

use crate::fault::LoadFault;
use crate::own_bytes::{OwnBytes, own_memory_law, own_user};
use arrayvec::ArrayVec;
use elf_load::{check, place};
use recording::{SingleSlot, SingleUserMachine};
use rv_model::{Policy, Reg, Scalar, Seat, VState};
use std::alloc::Allocator;
use user_mem::{NoMemory, Pool};

/// Number of the register that holds the stack pointer.
const STACK_POINTER: u32 = 2;

/// Initial stack pointer of a program.
const STACK_TOP: u64 = 0x7fff_efc0;

/// Return a vector state that hasn't been used.
fn new_seat() -> SingleSlot
    ensures { result.seat.state ≡ initial_vector }
{
    SingleSlot {
        seat: Seat {
            state: VState::new(),
            dirty: false,
        },
    }
}

/// Create the machine of a user who has just entered: no memory, and all registers 0. Return `NoMemory` if the allocation fails.
// Out of line: inlined, it adds copies of the machine, of 199 KB each, to the caller's stack frame.
#[inline(never)]
pub fn enter<A: Allocator>(
    alloc: A,
    policy: Policy,
) -> Result<SingleUserMachine<OwnBytes<A>>, NoMemory>
    ensures { IfOk result (λ machine. state_of own_memory machine ≡ entered policy) }
{
    let pool = Pool::new(alloc)?;
    Ok(SingleUserMachine {
        scalar: Scalar::new(),
        memory: OwnBytes { pool },
        vectors: new_seat(),
        output: ArrayVec::new(),
        policy,
    })
}

/// Return the initial registers of a program with this entry address.
#[tactic(auto, unfolding(rv_model::specs::scalar::Registers::initial_scalar))]
fn first_registers(entry: u64) -> Scalar
    ensures { result ≡ with_register 2 0x7fffefc0 (record initial_scalar { pc = entry }) }
{
    let mut scalar = Scalar::new();
    scalar.pc = entry;
    scalar.write(Reg::new(STACK_POINTER), STACK_TOP);
    scalar
}

/// Restart the machine with the memory of an image, as the monitor's `load` does; the policy is unchanged. If the image is refused, nothing
/// changes.
#[tactic(auto, using(crate::specs::Replaced::own_memory_there))]
pub fn load<A: Allocator>(
    machine: &mut SingleUserMachine<OwnBytes<A>>,
    image: &[u8],
) -> Result<(), LoadFault>
    ensures accepted { IsOk result ↔ (load_fault image.now ≡ None) }
    ensures refused { IfErr result (λ fault. load_fault image.now ≡ Some fault) }
    ensures ok { OnOk result (state_of own_memory machine.new ≡ loaded image.now machine.old.policy) }
    ensures policy { machine.new.policy ≡ machine.old.policy }
    ensures err { OnErr result (state_of own_memory machine.new ≡ state_of own_memory machine.old) }
{
    own_memory_law(&machine.memory);
    let plan = match check(image) {
        Ok(plan) => plan,
        Err(fault) => return Err(LoadFault::Elf(fault)),
    };
    let Ok(entry) = place(&plan, own_user(), &mut machine.memory.pool) else {
        return Err(LoadFault::Quota);
    };
    machine.scalar = first_registers(entry);
    machine.vectors = new_seat();
    machine.output.clear();
    Ok(())
}
