//! A run of the recorder whose inputs and files are in memory. The program has four instructions: x5 = 3; x5 = x5 - 1; a
//! branch back to the second one unless x5 is 0; EBREAK.
use crate::memory_files::MemoryFiles;
use crate::memory_inputs::MemoryInputs;
use devices::WriterSink;
use std::alloc::Global;
use vec_recorder::record_into;

/// The words of the program.
const CODE: [u8; 16] = [
    0x93, 0x02, 0x30, 0x00, 0x93, 0x82, 0xf2, 0xff, 0xe3, 0x9e, 0x02, 0xfe, 0x73, 0x00, 0x10, 0x00,
];

const ARGUMENTS: [&str; 13] = [
    "vecmon-record",
    "--memory",
    "0:x:code",
    "--counts",
    "counts",
    "--watch",
    "0:4",
    "--changes",
    "changes",
    "--log",
    "log",
    "--to",
    "1",
];

/// The last line of each record: the stop, seven instructions and seven ticks.
const END: &str = "ebreak pc=000000000000000c 7 7\n";

const COUNTS: &str = "\
at 0000000000000000 00300293 1 1 0 0 0
at 0000000000000004 fff28293 3 3 0 0 0
at 0000000000000008 fe029ee3 3 3 0 0 0
ebreak pc=000000000000000c 7 7
";

const LOG: &str = "\
core   0: 0 0x0000000000000000 (0x00300293) x5  0x0000000000000003
ebreak pc=000000000000000c 7 7
";

/// Whether the file number `index` of the closed ones has this path and this text.
fn is_file(files: &MemoryFiles, index: usize, path: &str, text: &str) -> bool {
    match files.closed.get(index) {
        Some(file) => file.path.as_str() == path && file.bytes.as_slice() == text.as_bytes(),
        None => false,
    }
}

/// Whether these are the three files of the run, and no others.
fn are_files(files: &MemoryFiles) -> bool {
    files.created == 3
        && files.closed.len() == 3
        && is_file(files, 0, "log", LOG)
        && is_file(files, 1, "changes", END)
        && is_file(files, 2, "counts", COUNTS)
}

/// Record a run of the program into files that accept at most `piece` bytes in a write. Return whether they have the
/// expected texts, and the output is empty.
fn is_recorded(alloc: Global, piece: usize) -> bool {
    let inputs = MemoryInputs { bytes: &CODE };
    let mut output = Vec::new(alloc);
    let mut files = MemoryFiles::new(alloc, piece);
    let status = record_into(
        &inputs,
        alloc,
        &ARGUMENTS,
        &mut WriterSink::new(&mut output),
        &mut files,
    );
    status == 0 && output.is_empty() && are_files(&files)
}

/// Return whether a run is recorded in files that accept all bytes, and in files that accept one byte in a write.
pub(crate) fn runs(alloc: Global) -> [bool; 2] {
    [is_recorded(alloc, usize::MAX), is_recorded(alloc, 1)]
}
