//! A buffer for a reply or a line of text.
ghost use Rattle.std.specs.Prelude.{◌≡◌, ◌+◌, ◌≤◌, [], ◌++◌, length};

use arrayvec::ArrayVec;
use std::marker::Model;

/// At most 4,096 bytes of text: the lines of a reply, or one line of a record.
#[derive(Drop)]
pub struct Reply {
    bytes: ArrayVec<u8, 4096>,
}

impl Model for Reply {
    ghost use Rattle.std.specs.Prelude.{List, ℕ};

    ghost Value = { List ℕ };

    ghost view = { λ r. r.bytes.items };
}

impl Reply {
    /// Return an empty reply.
    pub fn new() -> Reply
        ensures { result ≡ [] }
    {
        Reply {
            bytes: ArrayVec::new(),
        }
    }

    /// Remove all bytes.
    pub fn clear(&mut self)
        ensures { self.new ≡ [] }
    {
        self.bytes.clear();
    }

    /// Return the bytes of the reply.
    pub fn as_slice(&self) -> &[u8]
        ensures value { result.now ≡ self.now }
        ensures bound { length result.now ≤ 4096 }
    {
        self.bytes.as_slice()
    }

    /// Append `bytes`, for which the reply must have room.
    pub fn push(&mut self, bytes: &[u8])
        requires { length self.old + length bytes.now ≤ 4096 }
        ensures { self.new ≡ self.old ++ bytes.now }
    {
        let _ = self.bytes.try_extend_from_slice(bytes);
    }
}
