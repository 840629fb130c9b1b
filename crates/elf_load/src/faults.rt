//! The first fault of an image.
ghost use Rattle.std.specs.Prelude.{◌≡◌, ◌≤◌, ◌+◌, ◌*◌, length, find, None};
ghost use Rattle.rv_model.specs.images.Fields.{header_count};
ghost use Rattle.rv_model.specs.images.Faults.{has_fault, first_fault};
ghost use Rattle.elf_load.specs.Parts.{header_has, any_header_has, file_faults, table_faults, segment_faults};
ghost use Rattle.elf_load.specs.Headers.{HasHeaders};

use crate::fields::{
    entry, file_type, header_count, header_size, machine, program_header, table_offset,
};
use rv_model::{ADDRESS_END, ElfFault, ProgramHeader};

/// The first four bytes: `EI_MAG0` to `EI_MAG3`.
const MAGIC: [u8; 4] = [0x7f, b'E', b'L', b'F'];

/// `ELFCLASS64`.
const CLASS_64: u8 = 2;

/// `ELFDATA2LSB`.
const LITTLE_ENDIAN: u8 = 1;

/// `ET_EXEC`, an executable at fixed addresses.
const EXECUTABLE: u16 = 2;

/// `EM_RISCV` (RISC-V ELF psABI, "File header").
const RISC_V: u16 = 243;

/// The size of the file header in bytes.
const FILE_HEADER_SIZE: usize = 64;

/// The size of a program header in bytes.
const PROGRAM_HEADER_SIZE: u16 = 56;

/// `PT_LOAD`, a segment to load into memory.
pub(crate) const LOAD: u32 = 1;

/// `PT_INTERP`, the path of an interpreter.
const INTERPRETER: u32 = 3;

/// Return the first fault of the file header.
#[tactic(auto, unfolding(rv_model::specs::images::Faults::has_fault))]
fn file_fault(image: &[u8]) -> Option<ElfFault>
    ensures { result ≡ find (has_fault image.now) file_faults }
{
    if image.len() < FILE_HEADER_SIZE {
        return Some(ElfFault::BadShort);
    }
    if !image.starts_with(&MAGIC) {
        return Some(ElfFault::BadMagic);
    }
    if image[4] != CLASS_64 {
        return Some(ElfFault::BadClass);
    }
    if image[5] != LITTLE_ENDIAN {
        return Some(ElfFault::BadData);
    }
    if file_type(image) != EXECUTABLE {
        return Some(ElfFault::BadType);
    }
    if machine(image) != RISC_V {
        return Some(ElfFault::BadMachine);
    }
    None
}

/// Return the first fault of the program header table.
#[tactic(auto, unfolding(rv_model::specs::images::Faults::has_fault))]
fn table_fault(image: &[u8]) -> Option<ElfFault>
    requires { 64 ≤ length image.now }
    ensures { result ≡ find (has_fault image.now) table_faults }
{
    let count = header_count(image);
    if count != 0 && header_size(image) != PROGRAM_HEADER_SIZE {
        return Some(ElfFault::BadHeaderSize);
    }
    let size = u128::from(PROGRAM_HEADER_SIZE) * u128::from(count);
    let end = u128::from(table_offset(image)) + size;
    if count != 0 && end > image.len() as u128 {
        return Some(ElfFault::BadHeaderTable);
    }
    None
}

/// Return whether a program header on its own has a fault, in a file of `size` bytes.
#[tactic(auto, unfolding(crate::specs::Parts::header_has))]
fn header_has(header: ProgramHeader, fault: ElfFault, size: usize) -> bool
    ensures { result ≡ header_has size fault header }
{
    let loaded = header.kind == LOAD;
    match fault {
        ElfFault::BadInterp => header.kind == INTERPRETER,
        ElfFault::BadFileSize => loaded && header.memory_size < header.file_size,
        ElfFault::BadOutside => {
            let end = u128::from(header.offset) + u128::from(header.file_size);
            loaded && header.file_size != 0 && (size as u128) < end
        }
        ElfFault::BadAddress => {
            let end = u128::from(header.address) + u128::from(header.memory_size);
            loaded && u128::from(ADDRESS_END) < end
        }
        _ => false,
    }
}

/// Return whether some program header on its own has a fault.
fn any_header_has(image: &[u8], fault: ElfFault) -> bool
    requires { HasHeaders image.now }
    ensures { result ≡ any_header_has image.now fault }
{
    for number in 0..usize::from(header_count(image)) {
        if header_has(program_header(image, number), fault, image.len()) {
            return true;
        }
    }
    false
}

/// Return the first fault of the program headers, each tested over all of them.
#[tactic(auto, unfolding(rv_model::specs::images::Faults::has_fault, crate::specs::Parts::header_has))]
fn segment_fault(image: &[u8]) -> Option<ElfFault>
    requires { HasHeaders image.now }
    ensures { result ≡ find (has_fault image.now) segment_faults }
{
    if any_header_has(image, ElfFault::BadInterp) {
        return Some(ElfFault::BadInterp);
    }
    if any_header_has(image, ElfFault::BadFileSize) {
        return Some(ElfFault::BadFileSize);
    }
    if any_header_has(image, ElfFault::BadOutside) {
        return Some(ElfFault::BadOutside);
    }
    if any_header_has(image, ElfFault::BadAddress) {
        return Some(ElfFault::BadAddress);
    }
    None
}

/// Return the first fault of an image.
#[tactic(auto, unfolding(rv_model::specs::images::Faults::has_fault))]
pub(crate) fn first_fault(image: &[u8]) -> Option<ElfFault>
    ensures { result ≡ first_fault image.now }
{
    if let Some(fault) = file_fault(image) {
        return Some(fault);
    }
    if let Some(fault) = table_fault(image) {
        return Some(fault);
    }
    if let Some(fault) = segment_fault(image) {
        return Some(fault);
    }
    if entry(image) % 4 != 0 {
        return Some(ElfFault::BadEntry);
    }
    None
}
