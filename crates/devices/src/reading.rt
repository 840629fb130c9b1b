//! Files read into memory.
ghost use Rattle.std.specs.Prelude.{◌≡◌, ◌≤◌, ◌<◌, IfErr, IfOk, length};
ghost use Rattle.std.specs.Io.KnownBytes.{Consumes, IsAtEnd};
ghost use Rattle.devices.specs.KnownBytes.{AreFirstKnown, AreKnownAs};

use crate::inputs::Inputs;
use std::alloc::{AllocError, Allocator};
use std::io::Read;

/// The error of reading a file.
#[derive(Clone, Copy, Debug, PartialEq, Eq)]
pub enum ReadFault {
    /// The file can't be opened or read.
    Unreadable,
    NoMemory,
}

impl From<AllocError> for ReadFault {
    ghost use Rattle.devices.specs.declared.reading.ReadFault.TheVariants.{NoMemory};

    ghost from_gives = { λ _ fault. fault ≡ NoMemory };

    fn from(_error: AllocError) -> ReadFault {
        ReadFault::NoMemory
    }
}

/// The largest number of bytes in one read.
const PIECE: usize = 4096;

/// Return the bytes of `file` up to its end, at most `most`. The first failed read is an error, even if it was
/// interrupted.
fn read_bytes<F: Read, A: Allocator>(
    file: &mut F,
    alloc: A,
    most: usize,
) -> Result<Vec<u8, A>, ReadFault>
    ensures given { IfOk result (λ bytes.
        Consumes (F.remaining file.old) (F.remaining file.new) bytes.items) }
    ensures most { IfOk result (λ bytes. length bytes.items ≤ most) }
    ensures whole { IfOk result (λ bytes.
        length bytes.items < most → IsAtEnd (F.remaining file.new)) }
{
    let mut bytes = Vec::new(alloc);
    let mut left = most;
    let mut piece = [0; PIECE];
    while left > 0 {
        let room = left.min(PIECE);
        let Ok(count) = file.read(&mut piece[..room]) else {
            return Err(ReadFault::Unreadable);
        };
        if count == 0 {
            return Ok(bytes);
        }
        bytes.extend_from_slice(&piece[..count])?;
        left -= count;
    }
    Ok(bytes)
}

/// Return the first `most` bytes of the file at `path`, or all of them if it has fewer. It fails if the file can't be
/// opened or read, or if memory runs out.
pub fn read_file<I: Inputs, A: Allocator>(
    inputs: &I,
    alloc: A,
    path: &str,
    most: usize,
) -> Result<Vec<u8, A>, ReadFault>
    ensures bytes { IfOk result (λ bytes.
        length bytes.items < most → AreKnownAs (I.file_bytes inputs.now path.now) bytes.items) }
    ensures first { IfOk result (λ bytes. AreFirstKnown most (I.file_bytes inputs.now path.now) bytes.items) }
    ensures most { IfOk result (λ bytes. length bytes.items ≤ most) }
{
    let Ok(mut file) = inputs.open(path) else {
        return Err(ReadFault::Unreadable);
    };
    read_bytes(&mut file, alloc, most)
}
