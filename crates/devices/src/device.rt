//! Sources of bytes and sinks for bytes: the devices that scripts come from and output goes to.
ghost use Rattle.std.specs.Prelude.{◌≡◌, ℕ, ◌<◌, ◌≤◌, List, [], ◌++◌, length, take, IfOk, OnErr};
ghost use Rattle.devices.specs.Device.{Counts};

use thiserror::Error;

/// The error of a failed read or write.
#[derive(Debug, Drop, Error)]
#[error("device failure")]
pub struct DeviceFault;

/// A device that returns bytes in order.
pub trait Source {
    /// Whether a read may have returned these bytes between two states. If the device's content is unspecified, any
    /// bytes are allowed.
    ghost gave: { Self → List ℕ → Self → Type 0 };

    /// Whether the last read into a buffer with room for at least one byte reached the end.
    ghost ended: { Self → Type 0 };

    /// The number of failed reads, up to 2^64 - 1, where it saturates.
    ghost failures: { Self → ℕ };

    /// Read the next bytes to the start of `buffer` and return their number. If `buffer` isn't empty, 0 bytes mean the
    /// end. A failed read consumes no byte.
    fn read(&mut self, buffer: &mut [u8]) -> Result<usize, DeviceFault>
        ensures bound { IfOk result (λ n. n ≤ length buffer.new) }
        ensures bytes { IfOk result (λ n. gave self.old (take n buffer.new) self.new) }
        ensures kept { OnErr result (gave self.old [] self.new) }
        ensures end { 0 < length buffer.new → IfOk result (λ n. n ≡ 0 → ended self.new) }
        ensures more { IfOk result (λ n. 0 < n → ¬ (ended self.new)) }
        ensures count { Counts (failures self.old) (failures self.new) result };

    /// Reading no bytes may leave the state unchanged.
    ghost gave_none: { (s : Self) → gave s [] s };

    /// Two consecutive reads, with no end between them, return the bytes of both in order.
    ghost gave_more: { (a b c : Self) (xs ys : List ℕ) → gave a xs b → ¬ (ended b) → gave b ys c
        → gave a (xs ++ ys) c };
}

/// A device that accepts bytes in order.
pub trait Sink {
    /// Whether the device may have accepted these bytes between two states. If the device's content is unspecified, any
    /// bytes are allowed.
    ghost took: { Self → List ℕ → Self → Type 0 };

    /// The number of failed writes, up to 2^64 - 1, where it saturates.
    ghost failures: { Self → ℕ };

    /// Write a prefix of `bytes` and return its length, at least 1 unless `bytes` is empty. A failed write accepts no
    /// byte.
    fn write(&mut self, bytes: &[u8]) -> Result<usize, DeviceFault>
        ensures bound { IfOk result (λ n. n ≤ length bytes.now) }
        ensures some { IfOk result (λ n. 0 < length bytes.now → 0 < n) }
        ensures bytes { IfOk result (λ n. took self.old (take n bytes.now) self.new) }
        ensures kept { OnErr result (took self.old [] self.new) }
        ensures count { Counts (failures self.old) (failures self.new) result };

    /// Writing no bytes may leave the state unchanged.
    ghost took_none: { (s : Self) → took s [] s };

    /// Two consecutive writes accept the bytes of both in order.
    ghost took_more: { (a b c : Self) (xs ys : List ℕ) → took a xs b → took b ys c → took a (xs ++ ys) c };
}
