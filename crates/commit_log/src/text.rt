//! Text that is buffered before it is written.
ghost use Rattle.std.specs.Prelude.{◌≡◌, ◌+◌, ◌≤◌, [], ◌++◌, length, IfOk};

use std::alloc::{AllocError, Global};
use std::marker::Model;

/// Upper bound of the length of a line, in bytes. The registers take fewer than 4,096 bytes, and each of at most 2,048 moved elements takes
/// 42.
pub const LINE_SIZE: usize = 90_112;

/// Capacity of a text, in bytes.
pub const TEXT_SIZE: usize = 160 * 1024;

/// Text of at most `TEXT_SIZE` bytes.
#[derive(Drop)]
pub struct Text {
    bytes: Vec<u8>,
    len: usize,
}

impl Model for Text {
    ghost use Rattle.std.specs.Prelude.{List, ℕ, ◌≡◌, ◌≤◌, length, take};
    ghost use Rattle.commit_log.specs.declared.text.TheConstants.{TEXT_SIZE};

    ghost Value = { List ℕ };

    ghost view = { λ t. take t.len t.bytes.items };

    ghost invariant = { λ t. (length t.bytes.items ≡ TEXT_SIZE) × (t.len ≤ TEXT_SIZE) };
}

impl Text {
    /// Create an empty text. Return `AllocError` if the allocation fails.
    pub fn new(alloc: Global) -> Result<Text, AllocError>
        ensures { IfOk result (λ text. text ≡ []) }
    {
        Ok(Text {
            bytes: vec![in alloc; 0; TEXT_SIZE]?,
            len: 0,
        })
    }

    /// Remove all bytes of the text.
    pub fn clear(&mut self)
        ensures { self.new ≡ [] }
    {
        self.len = 0;
    }

    /// Return the bytes of the text, at most `TEXT_SIZE`.
    pub fn as_slice(&self) -> &[u8]
        ensures value { result.now ≡ self.now }
        ensures bound { length result.now ≤ TEXT_SIZE }
    {
        &self.bytes[..self.len]
    }

    /// Append bytes to the text.
    #[inline(always)]
    pub(crate) fn push(&mut self, bytes: &[u8])
        requires { length self.old + length bytes.now ≤ TEXT_SIZE }
        ensures { self.new ≡ self.old ++ bytes.now }
    {
        let end = self.len + bytes.len();
        self.bytes[self.len..end].copy_from_slice(bytes);
        self.len = end;
    }
}
