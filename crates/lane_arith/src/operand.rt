//! Operands in chunks of 32 bytes.
ghost use Rattle.std.specs.Prelude.{◌≡◌, ◌+◌, ◌*◌, ◌^◌, ◌<◌, ◌≤◌, ℕ, IfSome, length};
ghost use Rattle.rv_model.specs.elements.Elements.{element};
ghost use Rattle.rv_model.specs.vector.Groups.{width_bytes};
ghost use mir.Val.{bits};

use crate::lane::Lane;
use std::simd::prelude::*;

/// Return the elements of the chunk of 32 bytes with index `chunk`, as a SIMD vector.
#[inline(always)]
pub fn chunk_elements<L: Lane>(bytes: &[u8], chunk: usize) -> L::Vector
    requires inside { 32 * chunk + 32 ≤ length bytes.now }
    ensures value { (i : ℕ) → i < L.count
        → L.lane result i ≡ element (width_bytes L.width) bytes.now (L.count * chunk + i) }
    ensures bound { (i : ℕ) → i < L.count → L.lane result i < 2 ^ bits L.width }
{
    L::from_bytes(u8x32::from_array(bytes.as_chunks::<32>().0[chunk]))
}

/// Return the elements of the chunk of 32 bytes with index `chunk` as a SIMD vector, or `None` if the operand ends
/// before the chunk does.
pub fn operand_chunk<L: Lane>(bytes: &[u8], chunk: usize) -> Option<L::Vector>
    ensures value { IfSome result (λ elements. (i : ℕ) → i < L.count
        → L.lane elements i ≡ element (width_bytes L.width) bytes.now (L.count * chunk + i)) }
    ensures bound { IfSome result (λ elements. (i : ℕ) → i < L.count → L.lane elements i < 2 ^ bits L.width) }
{
    if bytes.len() / 32 <= chunk {
        return None;
    }
    Some(chunk_elements::<L>(bytes, chunk))
}
