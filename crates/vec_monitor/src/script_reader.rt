//! The script of a run: standard input, or a file that is opened in its place.
ghost use Rattle.std.specs.Prelude.{◌≡◌, OnOk, true};
ghost use Rattle.std.specs.Io.KnownBytes.{Consumes, IsAtEnd, Keeps};
ghost use Rattle.std.proofs.KnownBytes.{Consumes-nil, Consumes-trans};
ghost use Rattle.devices.specs.Device.{Counts};
ghost use Rattle.either.specs.Either.{either};
ghost use Rattle.either.specs.declared.Either.TheVariants.{Right};

use devices::{DeviceFault, Inputs, Source};
use either::{Either, Left, Right};
use std::io::Read;

/// A reader of a script: an open file, or standard input. It counts failures to open a file and to read.
#[derive(Drop)]
pub struct ScriptReader<F, S> {
    reader: Either<F, S>,
    at_end: bool,
    failures: u64,
}

impl<F, S> ScriptReader<F, S> {
    /// Return a reader of standard input, with a failure count of 0.
    pub fn new(input: S) -> Self
        ensures reader { result.reader ≡ Right input }
        ensures count { result.failures ≡ 0 }
    {
        ScriptReader {
            reader: Right(input),
            at_end: false,
            failures: 0,
        }
    }
}

impl<F: Read, S: Read> Source for ScriptReader<F, S> {
    ghost gave = { λ a xs b.
        Consumes (either F.remaining S.remaining a.reader) (either F.remaining S.remaining b.reader) xs };

    ghost ended = { λ s. (s.at_end ≡ true) × IsAtEnd (either F.remaining S.remaining s.reader) };

    ghost failures = { λ s. s.failures };

    fn read(&mut self, buffer: &mut [u8]) -> Result<usize, DeviceFault> {
        match self.reader.read(buffer) {
            Ok(count) => {
                self.at_end = count == 0;
                Ok(count)
            }
            Err(_) => {
                self.failures = self.failures.saturating_add(1);
                Err(DeviceFault)
            }
        }
    }

    ghost gave_none = { λ s. Consumes-nil (either F.remaining S.remaining s.reader) };

    ghost gave_more = { λ a b c xs ys first _ then.
        Consumes-trans (either F.remaining S.remaining a.reader) (either F.remaining S.remaining b.reader)
        (either F.remaining S.remaining c.reader) xs ys first then };
}

/// Read the script from the file at a path, from its start.
pub(crate) fn open_script<I: Inputs, S: Read + Drop>(
    script: &mut ScriptReader<I::File, S>,
    inputs: &I,
    path: &str,
) -> Result<(), DeviceFault>
    ensures bytes { OnOk result (Keeps (I.file_bytes inputs.now path.now)
        (either I.File.remaining S.remaining script.new.reader)) }
    ensures count { Counts script.old.failures script.new.failures result }
{
    let Ok(file) = inputs.open(path) else {
        script.failures = script.failures.saturating_add(1);
        return Err(DeviceFault);
    };
    script.reader = Left(file);
    script.at_end = false;
    Ok(())
}
