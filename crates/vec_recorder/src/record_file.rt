//! A file of a process that a record is written to.
ghost use Rattle.std.specs.Prelude.{◌≡◌, ℕ};
ghost use Rattle.std.specs.Io.KnownBytes.{Appends};
ghost use Rattle.std.proofs.KnownBytes.{Appends-nil, Appends-trans};

use devices::{DeviceFault, Sink};
use std::fs::OpenFile;
use std::io::Write;

/// An open file whose first write removes the bytes that it had when it was opened.
#[derive(Drop)]
pub struct RecordFile<F> {
    file: F,
    /// Whether the file must be truncated before the next write. Pipes and devices have no length.
    is_untouched: bool,
    failures: u64,
}

impl<F> RecordFile<F> {
    /// Return an open file before its first write, with a failure count of 0. `has_length` is whether it can be
    /// truncated.
    pub(crate) fn new(file: F, has_length: bool) -> Self
        ensures file { result.file ≡ file }
        ensures count { result.failures ≡ 0 }
    {
        RecordFile {
            file,
            is_untouched: has_length,
            failures: 0,
        }
    }

    /// Return the number of failed writes, up to 2^64 - 1, where it saturates.
    pub(crate) fn failures(&self) -> u64
        ensures { result ≡ self.now.failures }
    {
        self.failures
    }
}

impl<F: OpenFile + Write> Sink for RecordFile<F> {
    ghost took = { λ a xs b. Appends (F.contents a.file) (F.contents b.file) xs };

    ghost failures = { λ s. s.failures };

    fn write(&mut self, bytes: &[u8]) -> Result<usize, DeviceFault> {
        if self.is_untouched && self.file.set_len(0).is_err() {
            self.failures = self.failures.saturating_add(1);
            return Err(DeviceFault);
        }
        self.is_untouched = false;
        match self.file.write(bytes) {
            Ok(count) if count > 0 || bytes.is_empty() => Ok(count),
            _ => {
                self.failures = self.failures.saturating_add(1);
                Err(DeviceFault)
            }
        }
    }

    ghost took_none = { λ s. Appends-nil (F.contents s.file) };

    ghost took_more = { λ a b c xs ys.
        Appends-trans (F.contents a.file) (F.contents b.file) (F.contents c.file) xs ys };
}
