//! The files that the program writes its records to.
ghost use Rattle.std.specs.Prelude.{◌≡◌, ℕ, ◌+◌, ◌-◌, ◌^◌, List, IfOk, min, ⊤};
ghost use Rattle.devices.specs.Device.{Counts};

use crate::record_file::RecordFile;
use crate::same_files::is_same_file;
use devices::{DeviceFault, Sink};
use std::alloc::{AllocError, Global};
use std::fs;
use std::rt::Files;

/// Files that are created by path, written, and closed. An implementation specifies their bytes, or leaves them
/// unspecified.
pub trait Outputs {
    /// A created file that isn't closed yet.
    type Created: Sink + Drop;

    /// Whether the file at a path was created between two states of all files, before anything is written to it.
    ghost is_created: { Self → List ℕ → Self.Created → Self → Type 0 };

    /// Whether a created file was closed between two states of all files.
    ghost is_closed: { Self → Self.Created → Self → Type 0 };

    /// Whether no file that existed has changed between two states of all files.
    ghost are_kept: { Self → Self → Type 0 };

    /// The number of files that couldn't be created, up to 2^64 - 1, where it saturates.
    ghost failures: { Self → ℕ };

    /// The number of failed writes to files before they were closed, up to 2^64 - 1, where it saturates.
    ghost write_failures: { Self → ℕ };

    /// Create the file at a path, or open an existing file. An existing file isn't changed: its first write removes its
    /// old bytes.
    fn create(&mut self, path: &str) -> Result<Self::Created, DeviceFault>
        ensures created { IfOk result (λ file. is_created self.old path.now file self.new) }
        ensures kept { are_kept self.old self.new }
        ensures count { Counts (failures self.old) (failures self.new) result }
        ensures writes { write_failures self.new ≡ write_failures self.old };

    /// Close a file after its last write, which may have failed.
    fn close(&mut self, file: Self::Created)
        ensures closed { is_closed self.old file self.new }
        ensures count { failures self.new ≡ failures self.old }
        ensures writes { write_failures self.new
            ≡ min (write_failures self.old + Self.Created.failures file) (2 ^ 64 - 1) };

    /// Return whether both paths name the same file: one that exists, or one that doesn't exist and that both would
    /// create. Fails if memory runs out.
    fn is_same_file(&self, alloc: Global, first: &str, second: &str) -> Result<bool, AllocError>;

    /// A law: in an unchanged state no file has changed.
    ghost kept_none: { (s : Self) → are_kept s s };

    /// A law: if no file that existed has changed twice, none has changed over both times.
    ghost kept_more: { (a b c : Self) → are_kept a b → are_kept b c → are_kept a c };
}

/// The files of a process. Their bytes are unspecified.
#[derive(Drop)]
pub struct ProcessFiles<'a, R> {
    rt: &'a R,
    failures: u64,
    write_failures: u64,
}

impl<'a, R: Files> ProcessFiles<'a, R> {
    /// Return the files of the process, with a failure count of 0.
    pub fn new(rt: &'a R) -> Self {
        ProcessFiles {
            rt,
            failures: 0,
            write_failures: 0,
        }
    }
}

impl<R: Files> Outputs for ProcessFiles<'_, R> {
    type Created = RecordFile<R::File>;

    ghost is_created = { λ _ _ _ _. ⊤ };

    ghost is_closed = { λ _ _ _. ⊤ };

    ghost are_kept = { λ _ _. ⊤ };

    ghost failures = { λ files. files.failures };

    ghost write_failures = { λ files. files.write_failures };

    fn create(&mut self, path: &str) -> Result<RecordFile<R::File>, DeviceFault> {
        let mut options = fs::OpenOptions::new();
        options.write(true).create(true);
        let Ok(file) = options.open(self.rt, path) else {
            self.failures = self.failures.saturating_add(1);
            return Err(DeviceFault);
        };
        let has_length = match fs::metadata(self.rt, path) {
            Ok(found) => found.is_file(),
            Err(_) => false,
        };
        Ok(RecordFile::new(file, has_length))
    }

    fn close(&mut self, file: RecordFile<R::File>) {
        self.write_failures = self.write_failures.saturating_add(file.failures());
    }

    /// Compare existing files by their device and inode numbers, and files that don't exist by those of their folders and
    /// by their names, after following symbolic links.
    fn is_same_file(&self, alloc: Global, first: &str, second: &str) -> Result<bool, AllocError> {
        is_same_file(self.rt, alloc, first, second)
    }

    ghost kept_none = { λ _. tt };

    ghost kept_more = { λ _ _ _ _ _. tt };
}
