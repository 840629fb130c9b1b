//! Types of command arguments.
ghost use Rattle.std.specs.Prelude.{◌≡◌, ◌≤◌, ◌+◌};
ghost use Rattle.rv_model.specs.commands.Arguments.{byte_string};

use crate::memory::{PAGE_LIMIT, PAGE_SIZE};
use arrayvec::ArrayVec;
use std::marker::Model;

/// A string of at most 256 bytes.
#[derive(Drop)]
pub struct ByteString {
    bytes: ArrayVec<u8, 256>,
}

impl Model for ByteString {
    ghost use Rattle.std.specs.Prelude.{List, ℕ};

    ghost Value = { List ℕ };

    ghost view = { λ b. b.bytes.items };
}

impl ByteString {
    /// Return the 1 to 256 bytes of an even number of hexadecimal digits, or `None` for any other text.
    pub fn from_hex(text: &[u8]) -> Option<ByteString>
        ensures { result ≡ byte_string text.now }
    {
        let len = text.len() / 2;
        if len < 1 || len > 256 {
            return None;
        }
        let mut buffer = [0; 256];
        if hex::decode_to_slice(text, &mut buffer[..len]).is_err() {
            return None;
        }
        let mut bytes = ArrayVec::new();
        let _ = bytes.try_extend_from_slice(&buffer[..len]);
        Some(ByteString { bytes })
    }

    /// Return the bytes.
    pub fn as_slice(&self) -> &[u8]
        ensures { result.now ≡ self.now }
    {
        self.bytes.as_slice()
    }
}

/// Part of a command's line: the name of an image, or the text of an instruction.
#[derive(Drop)]
pub struct LinePart<'a> {
    bytes: &'a [u8],
}

impl<'a> Model for LinePart<'a> {
    ghost use Rattle.std.specs.Prelude.{List, ℕ};

    ghost Value = { List ℕ };

    ghost view = { λ t. t.bytes.now };
}

impl<'a> LinePart<'a> {
    /// Return the part with these bytes.
    pub fn new(bytes: &'a [u8]) -> LinePart<'a>
        ensures { result ≡ bytes.now }
    {
        LinePart { bytes }
    }

    /// Return the bytes.
    pub fn as_slice(&self) -> &'a [u8]
        ensures { result.now ≡ self.now }
    {
        self.bytes
    }
}

/// A count of at most `MAX`.
#[derive(Clone, Copy)]
pub struct Count<const MAX: usize> {
    count: usize,
}

impl<const MAX: usize> Model for Count<MAX> {
    ghost use Rattle.std.specs.Prelude.{ℕ, ◌≤◌};

    ghost Value = { ℕ };

    ghost view = { λ c. c.count };

    ghost invariant = { λ c. c.count ≤ MAX };

    ghost inverse = { λ n. record { count = n } };
}

impl<const MAX: usize> Count<MAX> {
    /// Return a count, which must be at most `MAX`.
    pub fn new(count: usize) -> Count<MAX>
        requires { count ≤ MAX }
        ensures { result ≡ count }
    {
        Count { count }
    }

    /// Return the count.
    pub fn get(self) -> usize
        ensures value { result ≡ self.entry }
        ensures small { self.entry ≤ MAX }
    {
        self.count
    }
}

/// A range of whole pages that ends at or below `ADDRESS_END`.
#[derive(Clone, Copy)]
pub struct PageRange {
    first: u64,
    count: usize,
}

impl Model for PageRange {
    ghost use Rattle.rv_model.specs.commands.Arguments.{Pages};
    ghost use Rattle.rv_model.specs.memory.Sizes.{page_limit};
    ghost use Rattle.std.specs.Prelude.{◌≤◌, ◌+◌};

    ghost Value = { Pages };

    ghost view = { λ p. record { first = p.first; count = p.count } };

    ghost invariant = { λ p. p.first + p.count ≤ page_limit };

    ghost inverse = { λ v. record { first = v.first; count = v.count } };
}

impl PageRange {
    ghost use Rattle.rv_model.specs.commands.Arguments.{page_range};
    ghost use Rattle.rv_model.specs.memory.Sizes.{page_limit};

    /// Return the range of `count` pages from `addr` on, or `None` unless the address is divisible by `PAGE_SIZE` and
    /// the range ends at or below `ADDRESS_END`.
    pub fn new(addr: u64, count: usize) -> Option<PageRange>
        ensures { result ≡ page_range addr count }
    {
        let first = addr / PAGE_SIZE;
        if addr % PAGE_SIZE != 0 || first > PAGE_LIMIT || count as u64 > PAGE_LIMIT - first {
            return None;
        }
        Some(PageRange { first, count })
    }

    /// Return the number of the first page: its address divided by `PAGE_SIZE`.
    pub fn first(self) -> u64
        ensures value { result ≡ self.first }
        ensures inside { self.first + self.count ≤ page_limit }
    {
        self.first
    }

    /// Return the number of pages.
    pub fn count(self) -> usize
        ensures { result ≡ self.count }
    {
        self.count
    }
}
