//! A writer and a reader in memory that accept or return a few bytes in a call, of which one call fails, and an endless
//! reader.
use std::alloc::Global;
use std::io;
use std::io::{ErrorKind, Read, Write};

/// The number of a call that isn't reached.
pub(crate) const NEVER: u64 = u64::MAX;

/// A writer that accepts at most `piece` bytes in a call. Its call number `failing`, counted from 1, is interrupted.
#[derive(Drop)]
pub(crate) struct PieceWriter {
    pub bytes: Vec<u8>,
    pub calls: u64,
    piece: usize,
    failing: u64,
}

impl PieceWriter {
    /// Return a writer that has accepted no bytes.
    pub(crate) fn new(alloc: Global, piece: usize, failing: u64) -> PieceWriter {
        PieceWriter {
            bytes: Vec::new(alloc),
            calls: 0,
            piece,
            failing,
        }
    }
}

impl Write for PieceWriter {
    fn write(&mut self, bytes: &[u8]) -> io::Result<usize> {
        self.calls = self.calls.saturating_add(1);
        if self.calls == self.failing {
            return Err(io::Error::from(ErrorKind::Interrupted));
        }
        let count = self.piece.min(bytes.len());
        self.bytes.extend_from_slice(&bytes[..count])?;
        Ok(count)
    }

    fn flush(&mut self) -> io::Result<()> {
        Ok(())
    }
}

/// A reader that returns at most `piece` bytes in a call. Its call number `failing`, counted from 1, is interrupted.
#[derive(Drop)]
pub(crate) struct PieceReader<'a> {
    left: &'a [u8],
    calls: u64,
    piece: usize,
    failing: u64,
}

impl<'a> PieceReader<'a> {
    /// Return a reader of these bytes.
    pub(crate) fn new(bytes: &'a [u8], piece: usize, failing: u64) -> PieceReader<'a> {
        PieceReader {
            left: bytes,
            calls: 0,
            piece,
            failing,
        }
    }
}

impl Read for PieceReader<'_> {
    fn read(&mut self, buffer: &mut [u8]) -> io::Result<usize> {
        self.calls = self.calls.saturating_add(1);
        if self.calls == self.failing {
            return Err(io::Error::from(ErrorKind::Interrupted));
        }
        let count = self.piece.min(self.left.len()).min(buffer.len());
        let (front, rest) = self.left.split_at(count);
        buffer[..count].copy_from_slice(front);
        self.left = rest;
        Ok(count)
    }
}

/// A reader that returns newlines without an end.
#[derive(Drop)]
pub(crate) struct Newlines;

impl Read for Newlines {
    fn read(&mut self, buffer: &mut [u8]) -> io::Result<usize> {
        buffer.fill(b'\n');
        Ok(buffer.len())
    }
}
