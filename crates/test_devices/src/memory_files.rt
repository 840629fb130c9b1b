//! Files in memory, whose bytes are known.
ghost use Rattle.std.specs.Prelude.{◌≡◌, [], IfOk, string_bytes};

use devices::{DeviceFault, Sink};
use std::alloc::{AllocError, Global};
use vec_recorder::Outputs;

/// A created file, with its path and its bytes. A write accepts at most `piece` bytes, and at least one.
#[derive(Drop)]
pub(crate) struct MemoryFile {
    pub path: String,
    pub bytes: Vec<u8>,
    piece: usize,
    failures: u64,
}

impl Sink for MemoryFile {
    ghost use Rattle.test_devices.specs.MemoryFiles.{HasTaken, has_taken_more, has_taken_none};

    ghost took = { λ a xs b. HasTaken a.path a.bytes.items xs b.path b.bytes.items };

    ghost failures = { λ file. file.failures };

    fn write(&mut self, bytes: &[u8]) -> Result<usize, DeviceFault> {
        let count = self.piece.max(1).min(bytes.len());
        match self.bytes.extend_from_slice(&bytes[..count]) {
            Ok(()) => Ok(count),
            Err(_) => {
                self.failures = self.failures.saturating_add(1);
                Err(DeviceFault)
            }
        }
    }

    ghost took_none = { λ file. has_taken_none file.path file.bytes.items };

    ghost took_more = { λ a b c xs ys.
        has_taken_more a.path b.path c.path a.bytes.items b.bytes.items c.bytes.items xs ys };
}

/// The number of created files, modulo 2^64, and the closed files, in order.
#[derive(Drop)]
pub(crate) struct MemoryFiles {
    alloc: Global,
    piece: usize,
    pub created: u64,
    pub closed: Vec<MemoryFile>,
    /// Whether memory ran out when a file was closed.
    pub is_lost: bool,
    failures: u64,
    write_failures: u64,
}

impl MemoryFiles {
    /// Return no files. Files will accept at most `piece` bytes in a write.
    pub(crate) fn new(alloc: Global, piece: usize) -> MemoryFiles {
        MemoryFiles {
            alloc,
            piece,
            created: 0,
            closed: Vec::new(alloc),
            is_lost: false,
            failures: 0,
            write_failures: 0,
        }
    }
}

/// Return an empty file with this path. It fails if memory runs out.
fn empty_file(alloc: Global, path: &str, piece: usize) -> Result<MemoryFile, AllocError>
    ensures path { IfOk result (λ file. string_bytes file.path ≡ path.now) }
    ensures empty { IfOk result (λ file. file.bytes.items ≡ []) }
{
    Ok(MemoryFile {
        path: String::from_str(alloc, path)?,
        bytes: Vec::new(alloc),
        piece,
        failures: 0,
    })
}

impl Outputs for MemoryFiles {
    ghost use Rattle.std.proofs.Common.{◌∙◌, refl};
    ghost use Rattle.test_devices.specs.ClosedFiles.{IsClosed, IsCreated};

    type Created = MemoryFile;

    ghost is_created = { IsCreated };

    ghost is_closed = { IsClosed };

    ghost are_kept = { λ a b. b.closed.items ≡ a.closed.items };

    ghost failures = { λ files. files.failures };

    ghost write_failures = { λ files. files.write_failures };

    fn create(&mut self, path: &str) -> Result<MemoryFile, DeviceFault> {
        let Ok(file) = empty_file(self.alloc, path, self.piece) else {
            self.failures = self.failures.saturating_add(1);
            return Err(DeviceFault);
        };
        self.created = self.created.wrapping_add(1);
        Ok(file)
    }

    fn close(&mut self, file: MemoryFile) {
        self.write_failures = self.write_failures.saturating_add(file.failures);
        if self.closed.push(file).is_err() {
            self.is_lost = true;
        }
    }

    fn is_same_file(&self, _alloc: Global, first: &str, second: &str) -> Result<bool, AllocError> {
        Ok(first == second)
    }

    ghost kept_none = { λ _. refl };

    ghost kept_more = { λ _ _ _ first second. second ∙ first };
}
