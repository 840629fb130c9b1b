//! Inputs of a program: files by path, and standard input.
ghost use Rattle.std.specs.Prelude.{ℕ, List, Option, None, IfOk};
ghost use Rattle.std.specs.Io.KnownBytes.{Keeps};

use crate::device::DeviceFault;
use std::fs;
use std::io::Read;
use std::rt::Files;

/// Files by path, and standard input. An implementation specifies their bytes, or leaves them unspecified.
pub trait Inputs {
    /// An open file.
    type File: Read + Drop;

    /// A reader of standard input.
    type StandardInput: Read + Drop;

    /// The bytes of the file at a path, or `None` if they are unspecified.
    ghost file_bytes: { Self → List ℕ → Option (List ℕ) };

    /// The bytes of standard input, or `None` if they are unspecified.
    ghost input_bytes: { Self → Option (List ℕ) };

    /// Open the file at a path for reading from its start.
    fn open(&self, path: &str) -> Result<Self::File, DeviceFault>
        ensures { IfOk result (λ file. Keeps (file_bytes self.now path.now) (Self.File.remaining file)) };

    /// Return a reader of standard input that continues at the current position.
    fn standard_input(&self) -> Self::StandardInput
        ensures { Keeps (input_bytes self.now) (Self.StandardInput.remaining result) };
}

/// The files and the standard input of a process. Their bytes are unspecified.
impl<R: Files + Input> Inputs for R {
    type File = R::File;

    type StandardInput = R::Reader;

    ghost file_bytes = { λ _ _. None };

    ghost input_bytes = { λ _. None };

    fn open(&self, path: &str) -> Result<R::File, DeviceFault> {
        let Ok(file) = fs::open(self, path) else {
            return Err(DeviceFault);
        };
        Ok(file)
    }

    fn standard_input(&self) -> R::Reader {
        self.reader()
    }
}
