//! The initial machine of a run.
ghost use Rattle.std.specs.Prelude.{◌≡◌, ◌≤◌, ◌∷◌, [], IfErr, IfOk, OnOk, option_map};
ghost use Rattle.devices.specs.KnownBytes.{AreKnownAs};
ghost use Rattle.recording.specs.Machines.{state_of};
ghost use Rattle.first_state.specs.Loaded.{entered};
ghost use Rattle.first_state.specs.OwnMemory.{own_memory};
ghost use Rattle.first_state.specs.Placed.{in_memory};
ghost use Rattle.vec_recorder.specs.InitialMachine.{AreSet, ArePlaced, StartsFrom, IsLoaded};
ghost use Rattle.vec_recorder.specs.Statuses.{IsInitialFault};

use crate::memory_arguments::MemoryPath;
use crate::program_fault::ProgramFault;
use devices::{Inputs, ReadFault, read_file};
use first_state::{OwnBytes, load, place_bytes, set_registers};
use recording::SingleUserMachine;
use std::alloc::Global;

/// The maximum size of an image in bytes, as in the monitor.
const MAX_IMAGE: usize = 4_194_304;

/// The maximum size of a memory file in bytes: the size of all pages that a user may have.
const MAX_MEMORY: usize = 1_048_576;

/// The maximum size of a register file in bytes.
const MAX_REGISTERS: usize = 65_536;

/// Return all bytes of the file at `path`. Return `Read` if it can't be opened or read, `TooLong` if it has more than
/// `most` bytes, and `NoMemory` if memory runs out.
fn read_whole<'a, I: Inputs>(
    inputs: &I,
    alloc: Global,
    path: &'a str,
    most: usize,
) -> Result<Vec<u8>, ProgramFault<'a>>
    requires { most ≤ 4194304 }
    ensures bytes { IfOk result (λ bytes. AreKnownAs (I.file_bytes inputs.now path.entry.now) bytes.items) }
    ensures refused { IfErr result IsInitialFault }
{
    let bytes = match read_file(inputs, alloc, path, most + 1) {
        Ok(bytes) => bytes,
        Err(ReadFault::NoMemory) => return Err(ProgramFault::NoMemory),
        Err(ReadFault::Unreadable) => return Err(ProgramFault::Read(path)),
    };
    if bytes.len() > most {
        return Err(ProgramFault::TooLong(path));
    }
    Ok(bytes)
}

/// Load the image at a path into a new machine, if a path is given.
fn load_image<'a, I: Inputs>(
    inputs: &I,
    alloc: Global,
    machine: &mut SingleUserMachine<OwnBytes>,
    image: Option<&'a str>,
) -> Result<(), ProgramFault<'a>>
    requires { state_of own_memory machine.old ≡ entered machine.old.policy }
    ensures state { OnOk result (IsLoaded (I.file_bytes inputs.now) machine.old.policy
        (option_map (λ path. path.now) image.entry) (state_of own_memory machine.new)) }
    ensures refused { IfErr result IsInitialFault }
{
    let Some(path) = image else {
        return Ok(());
    };
    let bytes = read_whole(inputs, alloc, path, MAX_IMAGE)?;
    match load(machine, bytes.as_slice()) {
        Ok(()) => Ok(()),
        Err(fault) => Err(ProgramFault::Image(path, fault)),
    }
}

/// Write the bytes of a file to memory, and map missing pages.
fn place_file<'a, I: Inputs>(
    inputs: &I,
    alloc: Global,
    machine: &mut SingleUserMachine<OwnBytes>,
    memory: MemoryPath<'a>,
) -> Result<(), ProgramFault<'a>>
    ensures placed { OnOk result (ArePlaced (I.file_bytes inputs.now) (memory.entry ∷ [])
        (own_memory machine.old.memory) (own_memory machine.new.memory)) }
    ensures others { state_of own_memory machine.new
        ≡ in_memory (state_of own_memory machine.old) (own_memory machine.new.memory) }
    ensures refused { IfErr result IsInitialFault }
{
    let bytes = read_whole(inputs, alloc, memory.path, MAX_MEMORY)?;
    match place_bytes(machine, memory.addr, memory.permissions, bytes.as_slice()) {
        Ok(()) => Ok(()),
        Err(fault) => Err(ProgramFault::Memory(memory.path, fault)),
    }
}

/// Write the bytes of files to memory, in order.
fn place_files<'a, I: Inputs>(
    inputs: &I,
    alloc: Global,
    machine: &mut SingleUserMachine<OwnBytes>,
    memories: &[MemoryPath<'a>],
) -> Result<(), ProgramFault<'a>>
    ensures placed { OnOk result (ArePlaced (I.file_bytes inputs.now) memories.now
        (own_memory machine.old.memory) (own_memory machine.new.memory)) }
    ensures others { state_of own_memory machine.new
        ≡ in_memory (state_of own_memory machine.old) (own_memory machine.new.memory) }
    ensures refused { IfErr result IsInitialFault }
{
    for memory in memories {
        place_file(inputs, alloc, machine, *memory)?;
    }
    Ok(())
}

/// Set the registers that the file at a path contains, if a path is given.
fn set_registers_from_file<'a, I: Inputs>(
    inputs: &I,
    alloc: Global,
    machine: &mut SingleUserMachine<OwnBytes>,
    registers: Option<&'a str>,
) -> Result<(), ProgramFault<'a>>
    ensures laid { OnOk result (AreSet (I.file_bytes inputs.now) (option_map (λ path. path.now) registers.entry)
        (state_of own_memory machine.old) (state_of own_memory machine.new)) }
    ensures refused { IfErr result IsInitialFault }
{
    let Some(path) = registers else {
        return Ok(());
    };
    let text = read_whole(inputs, alloc, path, MAX_REGISTERS)?;
    match set_registers(machine, text.as_slice()) {
        Ok(()) => Ok(()),
        Err(fault) => Err(ProgramFault::Registers(path, fault)),
    }
}

/// Bring a new machine to the initial state of a run, with an image, memory files and registers. The files are read in
/// this order.
pub(crate) fn prepare<'a, I: Inputs>(
    inputs: &I,
    alloc: Global,
    machine: &mut SingleUserMachine<OwnBytes>,
    image: Option<&'a str>,
    memories: &[MemoryPath<'a>],
    registers: Option<&'a str>,
) -> Result<(), ProgramFault<'a>>
    requires { state_of own_memory machine.old ≡ entered machine.old.policy }
    ensures begins { OnOk result (StartsFrom (I.file_bytes inputs.now) machine.old.policy
        (option_map (λ path. path.now) image.entry) memories.now
        (option_map (λ path. path.now) registers.entry) (state_of own_memory machine.new)) }
    ensures refused { IfErr result IsInitialFault }
{
    load_image(inputs, alloc, machine, image)?;
    place_files(inputs, alloc, machine, memories)?;
    set_registers_from_file(inputs, alloc, machine, registers)?;
    Ok(())
}
