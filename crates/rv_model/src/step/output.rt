//! Limits on a program's output.

/// Capacity of a user's output buffer in bytes.
pub const OUTPUT_SIZE: usize = 1024;

/// Largest number of bytes that one call writes.
pub const WRITE_SIZE: usize = 256;
