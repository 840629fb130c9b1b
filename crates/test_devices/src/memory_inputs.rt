//! Inputs in memory, whose bytes are known.
ghost use Rattle.std.specs.Prelude.{[], Some};

use devices::{DeviceFault, Inputs};
use std::fmt::Display;
use std::io;

/// Inputs where every path opens the same bytes, and standard input is empty. Messages are dropped.
#[derive(Drop)]
pub(crate) struct MemoryInputs<'a> {
    pub bytes: &'a [u8],
}

impl<'a> Inputs for MemoryInputs<'a> {
    type File = &'a [u8];

    type StandardInput = &'static [u8];

    ghost file_bytes = { λ inputs _. Some inputs.bytes.now };

    ghost input_bytes = { λ _. Some [] };

    fn open(&self, _path: &str) -> Result<&'a [u8], DeviceFault> {
        Ok(self.bytes)
    }

    fn standard_input(&self) -> &'static [u8] {
        b"".as_slice()
    }
}

impl Eprint for MemoryInputs<'_> {
    fn eprint<D: Display + Drop>(&self, _value: D) -> io::Result<()> {
        Ok(())
    }

    fn eprintln<D: Display + Drop>(&self, _value: D) -> io::Result<()> {
        Ok(())
    }
}
