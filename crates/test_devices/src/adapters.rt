//! A writer and a reader whose first call fails. An adapter makes one call for each of its own, and reports the failure,
//! whether the call was interrupted or failed for another reason. Its next call succeeds.
use devices::{ReaderSource, Sink, Source, WriterSink};
use std::io;
use std::io::{ErrorKind, Read, Write};

/// A stream whose first call fails, and whose others succeed.
#[derive(Drop)]
struct FailingOnce {
    calls: u64,
    kind: ErrorKind,
}

impl FailingOnce {
    /// Count a call, and return the error of the first one.
    fn call(&mut self) -> io::Result<()> {
        self.calls = self.calls.saturating_add(1);
        if self.calls == 1 {
            return Err(io::Error::from(self.kind));
        }
        Ok(())
    }
}

impl Write for FailingOnce {
    fn write(&mut self, bytes: &[u8]) -> io::Result<usize> {
        self.call()?;
        Ok(bytes.len())
    }

    fn flush(&mut self) -> io::Result<()> {
        Ok(())
    }
}

impl Read for FailingOnce {
    fn read(&mut self, buffer: &mut [u8]) -> io::Result<usize> {
        self.call()?;
        Ok(buffer.len())
    }
}

/// Whether a write fails that makes one failing call, and the next one succeeds with its one call.
fn is_write_single(kind: ErrorKind) -> bool {
    let mut writer = FailingOnce { calls: 0, kind };
    let mut sink = WriterSink::new(&mut writer);
    let failed = sink.write(b"reply").is_err();
    let is_usable = matches!(sink.write(b"reply"), Ok(5));
    drop(sink);
    failed && is_usable && writer.calls == 2
}

/// Whether a read fails that makes one failing call, and the next one succeeds with its one call.
fn is_read_single(kind: ErrorKind) -> bool {
    let mut reader = FailingOnce { calls: 0, kind };
    let mut source = ReaderSource::new(&mut reader);
    let failed = source.read(&mut [0; 4]).is_err();
    let is_usable = matches!(source.read(&mut [0; 4]), Ok(4));
    drop(source);
    failed && is_usable && reader.calls == 2
}

/// Return whether each adapter reports each failure after one call, and is usable then.
pub(crate) fn first_calls() -> [bool; 4] {
    [
        is_write_single(ErrorKind::Interrupted),
        is_write_single(ErrorKind::Other),
        is_read_single(ErrorKind::Interrupted),
        is_read_single(ErrorKind::Other),
    ]
}
