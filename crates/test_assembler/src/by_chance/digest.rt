//! Digests of bytes.

/// The 32-bit FNV-1a digest of no bytes.
pub(crate) const EMPTY: u32 = 0x811c_9dc5;

/// The 32-bit FNV-1a digest of the bytes of `before`, followed by `bytes`.
pub(crate) fn digest(before: u32, bytes: &[u8]) -> u32 {
    let mut hash = before;
    for byte in bytes {
        hash = (hash ^ u32::from(*byte)).wrapping_mul(0x0100_0193);
    }
    hash
}
