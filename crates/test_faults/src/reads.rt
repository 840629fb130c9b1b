//! Reads a file with one failing read. `read_file` doesn't repeat that read, whether it is interrupted or fails for
//! another reason.
ghost use Rattle.std.specs.Prelude.{None};

use crate::tally::Tally;
use devices::{Inputs, ReadFault, read_file};
use std::alloc::{AllocError, Global};
use std::io;
use std::io::{ErrorKind, Read};
use vec_monitor::DeviceFault;

/// The size of the file in bytes. Reading it takes `READS` reads: of 4,096 bytes, of 904, and of 0 at the end.
const LENGTH: usize = 5000;

const READS: u64 = 3;

/// The errors of a failed read: an interruption, and another error.
const KINDS: [ErrorKind; 2] = [ErrorKind::Interrupted, ErrorKind::Other];

/// An open file, with the bytes left to read. Its read number `failing`, counted from 1, fails.
#[derive(Drop)]
struct FailingFile<'a> {
    left: &'a [u8],
    reads: u64,
    failing: u64,
    kind: ErrorKind,
}

impl Read for FailingFile<'_> {
    fn read(&mut self, buffer: &mut [u8]) -> io::Result<usize> {
        self.reads = self.reads.saturating_add(1);
        if self.reads == self.failing {
            return Err(io::Error::from(self.kind));
        }
        let count = self.left.len().min(buffer.len());
        let (front, rest) = self.left.split_at(count);
        buffer[..count].copy_from_slice(front);
        self.left = rest;
        Ok(count)
    }
}

/// Inputs where every path opens that file.
#[derive(Drop)]
struct FailingInputs<'a> {
    bytes: &'a [u8],
    failing: u64,
    kind: ErrorKind,
}

impl<'a> Inputs for FailingInputs<'a> {
    type File = FailingFile<'a>;

    type StandardInput = &'static [u8];

    ghost file_bytes = { λ _ _. None };

    ghost input_bytes = { λ _. None };

    fn open(&self, _path: &str) -> Result<FailingFile<'a>, DeviceFault> {
        Ok(FailingFile {
            left: self.bytes,
            reads: 0,
            failing: self.failing,
            kind: self.kind,
        })
    }

    fn standard_input(&self) -> &'static [u8] {
        b"".as_slice()
    }
}

/// Whether a file is refused if one of its reads fails, and is read completely if none does.
fn is_read_so(alloc: Global, inputs: &FailingInputs<'_>) -> bool {
    match read_file(inputs, alloc, "image", usize::MAX) {
        Ok(bytes) => inputs.failing > READS && bytes.as_slice() == inputs.bytes,
        Err(ReadFault::Unreadable) => inputs.failing <= READS,
        Err(ReadFault::NoMemory) => false,
    }
}

/// Makes each read of the file fail in turn with this error, and then one more read, which isn't reached.
fn add_reads(alloc: Global, bytes: &[u8], kind: ErrorKind, tally: &mut Tally) {
    for failing in 1..=READS + 1 {
        let inputs = FailingInputs {
            bytes,
            failing,
            kind,
        };
        tally.add(is_read_so(alloc, &inputs));
    }
}

/// Makes each read fail in turn, with each error.
pub(crate) fn failed_reads(alloc: Global) -> Result<Tally, AllocError> {
    let bytes = vec![in alloc; 7; LENGTH]?;
    let mut tally = Tally::new();
    for kind in KINDS {
        add_reads(alloc, bytes.as_slice(), kind, &mut tally);
    }
    Ok(tally)
}
