//! The line buffer of a script.
ghost use Rattle.std.specs.Prelude.{◌≡◌, []};
ghost use Rattle.monitor_script.specs.Feed.{longer};

use arrayvec::ArrayVec;
use std::marker::Model;

/// The first 1,025 bytes of an unfinished line, one more than a valid line may have.
#[derive(Drop)]
pub struct Line {
    bytes: ArrayVec<u8, 1025>,
}

impl Model for Line {
    ghost use Rattle.std.specs.Prelude.{List, ℕ};

    ghost Value = { List ℕ };

    ghost view = { λ l. l.bytes.items };
}

impl Line {
    /// Return an empty line.
    pub fn new() -> Line
        ensures { result ≡ [] }
    {
        Line {
            bytes: ArrayVec::new(),
        }
    }

    /// Remove all bytes.
    pub fn clear(&mut self)
        ensures { self.new ≡ [] }
    {
        self.bytes.clear();
    }

    /// Return the bytes.
    pub fn as_slice(&self) -> &[u8]
        ensures { result.now ≡ self.now }
    {
        self.bytes.as_slice()
    }

    /// Append a byte; discard it if the buffer is full.
    pub fn push(&mut self, byte: u8)
        ensures { self.new ≡ longer self.old byte }
    {
        if self.bytes.is_full() {
            return;
        }
        self.bytes.push(byte);
    }
}
