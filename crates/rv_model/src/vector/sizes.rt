//! The sizes of vector registers for VLEN 256 ("V" Vector Extension 1.0, sections 2 and 3).

/// Bits of a vector register (section 2, VLEN).
pub const VLEN: usize = 256;

/// Bytes of a vector register (section 3.6, `vlenb`).
pub const VLENB: usize = VLEN / 8;

/// Number of vector registers (section 3.1).
pub const VECTOR_REGISTERS: usize = 32;

/// Bytes of the largest group, of eight registers (section 3.4.2); also the largest number of elements of a vector.
pub const GROUP_BYTES: usize = 8 * VLENB;

/// Bytes of all vector registers.
pub const FILE_BYTES: usize = VECTOR_REGISTERS * VLENB;
