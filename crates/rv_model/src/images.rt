//! Program headers of ELF-64 images, and the faults of images.
mod laws;

ghost use Rattle.std.specs.Prelude.{◌≡◌, ◌≤◌, length};
ghost use Rattle.rv_model.specs.images.Faults.{fault_name};

pub use laws::images_hold_cells;

/// An entry of the program header table (ELF-64 Object File Format, "Program header table").
#[derive(Clone, Copy, Debug, PartialEq, Eq)]
pub struct ProgramHeader {
    /// `p_type`: 1 for a loadable segment, 3 for the path of an interpreter.
    pub kind: u32,
    /// `p_flags`: the sum of 1 for execute, 2 for write and 4 for read.
    pub flags: u32,
    /// `p_offset`: the offset in the file of the segment's first byte.
    pub offset: u64,
    /// `p_vaddr`: the address of the segment's first byte.
    pub address: u64,
    /// `p_filesz`: the segment's size in the file, in bytes.
    pub file_size: u64,
    /// `p_memsz`: the segment's size in memory, in bytes.
    pub memory_size: u64,
}

/// Why an image can't be loaded.
#[derive(Clone, Copy, Debug, PartialEq, Eq)]
pub enum ElfFault {
    /// The file is shorter than a file header, which has 64 bytes.
    BadShort,
    /// The file doesn't start with 7F 45 4C 46.
    BadMagic,
    /// The file isn't of the 64-bit class.
    BadClass,
    /// The file isn't little-endian.
    BadData,
    /// The file isn't an executable at fixed addresses.
    BadType,
    /// The file isn't for RISC-V.
    BadMachine,
    /// The size of a program header isn't 56 bytes.
    BadHeaderSize,
    /// The program header table runs past the end of the file.
    BadHeaderTable,
    /// The program requires an interpreter.
    BadInterp,
    /// A segment has more bytes in the file than in memory.
    BadFileSize,
    /// A segment's bytes run past the end of the file.
    BadOutside,
    /// A segment runs past address 2^48.
    BadAddress,
    /// The entry address isn't divisible by 4.
    BadEntry,
}

impl ElfFault {
    /// Return the name that the monitor prints.
    pub fn name(self) -> &'static str
        ensures name { result.now ≡ fault_name self }
        ensures short { length result.now ≤ 11 }
    {
        match self {
            ElfFault::BadShort => "Short",
            ElfFault::BadMagic => "Magic",
            ElfFault::BadClass => "Class",
            ElfFault::BadData => "Data",
            ElfFault::BadType => "Type",
            ElfFault::BadMachine => "Machine",
            ElfFault::BadHeaderSize => "HeaderSize",
            ElfFault::BadHeaderTable => "HeaderTable",
            ElfFault::BadInterp => "Interp",
            ElfFault::BadFileSize => "FileSize",
            ElfFault::BadOutside => "Outside",
            ElfFault::BadAddress => "Address",
            ElfFault::BadEntry => "Entry",
        }
    }
}
