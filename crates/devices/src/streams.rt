//! Adapters: a reader as a source, and a writer as a sink. The bytes of a file or a terminal are unspecified.
ghost use Rattle.std.specs.Prelude.{◌≡◌, ℕ, true};
ghost use Rattle.std.specs.Io.KnownBytes.{Appends, Consumes, IsAtEnd};
ghost use Rattle.std.proofs.KnownBytes.{Appends-nil, Appends-trans, Consumes-nil, Consumes-trans};

use crate::device::{DeviceFault, Sink, Source};
use std::io::{Read, Write};

/// A reader as a source.
#[derive(Drop)]
pub struct ReaderSource<R> {
    reader: R,
    at_end: bool,
    failures: u64,
}

impl<R> ReaderSource<R> {
    /// Return a source for the bytes of `reader`, with a failure count of 0.
    pub fn new(reader: R) -> Self
        ensures reader { result.reader ≡ reader }
        ensures count { result.failures ≡ 0 }
    {
        ReaderSource {
            reader,
            at_end: false,
            failures: 0,
        }
    }
}

impl<R: Read> Source for ReaderSource<R> {
    ghost gave = { λ a xs b. Consumes (R.remaining a.reader) (R.remaining b.reader) xs };

    ghost ended = { λ s. (s.at_end ≡ true) × IsAtEnd (R.remaining s.reader) };

    ghost failures = { λ s. s.failures };

    fn read(&mut self, buffer: &mut [u8]) -> Result<usize, DeviceFault> {
        match self.reader.read(buffer) {
            Ok(count) => {
                self.at_end = count == 0;
                Ok(count)
            }
            Err(_) => {
                self.failures = self.failures.saturating_add(1);
                Err(DeviceFault)
            }
        }
    }

    ghost gave_none = { λ s. Consumes-nil (R.remaining s.reader) };

    ghost gave_more = { λ a b c xs ys first _ then.
        Consumes-trans (R.remaining a.reader) (R.remaining b.reader) (R.remaining c.reader) xs ys first then };
}

/// A writer as a sink.
#[derive(Drop)]
pub struct WriterSink<W> {
    writer: W,
    failures: u64,
}

impl<W> WriterSink<W> {
    /// Return a sink that writes to `writer`, with a failure count of 0.
    pub fn new(writer: W) -> Self
        ensures writer { result.writer ≡ writer }
        ensures count { result.failures ≡ 0 }
    {
        WriterSink {
            writer,
            failures: 0,
        }
    }
}

impl<W: Write> Sink for WriterSink<W> {
    ghost took = { λ a xs b. Appends (W.contents a.writer) (W.contents b.writer) xs };

    ghost failures = { λ s. s.failures };

    fn write(&mut self, bytes: &[u8]) -> Result<usize, DeviceFault> {
        match self.writer.write(bytes) {
            Ok(count) if count > 0 || bytes.is_empty() => Ok(count),
            _ => {
                self.failures = self.failures.saturating_add(1);
                Err(DeviceFault)
            }
        }
    }

    ghost took_none = { λ s. Appends-nil (W.contents s.writer) };

    ghost took_more = { λ a b c xs ys.
        Appends-trans (W.contents a.writer) (W.contents b.writer) (W.contents c.writer) xs ys };
}
