//! Reduction of the active elements of whole chunks of 32 bytes: first chunks are combined lane by lane, then the
//! upper half of the lanes with the lower half, until one lane remains.
ghost use Rattle.std.specs.Prelude.{◌≡◌, ◌+◌, ◌*◌, ◌^◌, ◌<◌, ◌≤◌, ℕ, IfSome, map, replicate, if◌then◌else◌};
ghost use Rattle.std.specs.List.{filter, fold, range_with_len};
ghost use Rattle.std.specs.Simd.Lanes.{chunk, put_chunk};
ghost use Rattle.rv_model.specs.elements.Elements.{element, is_active};
ghost use Rattle.rv_model.specs.vector.Groups.{width_bytes};
ghost use Rattle.lane_reduce.specs.AnyOrder.{combination, neutral_number, total};
ghost use mir.Val.{bits};

use crate::chunk::{active_or_neutral, combined, neutral};
use crate::combine::Combined;
use crate::operations::combining;
use lane_arith::{Body, Lane, active_bits, apply, operand_chunk};
use rv_model::GROUP_BYTES;
use rv_model::instructions::operations::ReduceOp;
use std::simd::prelude::*;

/// The bytes starting at index `at`, followed by zeros.
fn bytes_from(bytes: u8x32, at: usize) -> u8x32
    requires { at ≤ 32 }
    ensures { result ≡ chunk at 32 (put_chunk 0 (replicate 64 0) bytes) }
{
    let mut room = [0; 64];
    bytes.copy_to_slice(&mut room);
    u8x32::from_slice(&room[at..])
}

/// The elements starting at index `by`, followed by zeros.
fn moved_down<L: Lane>(elements: L::Vector, by: usize) -> L::Vector
    requires few { by ≤ L.count }
    requires fits { (i : ℕ) → i < L.count → L.lane elements i < 2 ^ bits L.width }
    ensures value { (i : ℕ) → by + i < L.count → L.lane result i ≡ L.lane elements (by + i) }
    ensures bound { (i : ℕ) → i < L.count → L.lane result i < 2 ^ bits L.width }
{
    let width = 32 / L::count();
    L::from_bytes(bytes_from(L::to_bytes(elements), width * by))
}

/// The combination of all lanes, as lane 0 of the result.
fn combined_lanes<L: Lane>(op: ReduceOp, lanes: L::Vector) -> Option<L::Vector>
    requires { (i : ℕ) → i < L.count → L.lane lanes i < 2 ^ bits L.width }
    ensures value { IfSome result (λ made. L.lane made 0
        ≡ total (combination op L.width) (neutral_number op L.width) (L.lane lanes) L.count) }
    ensures bound { IfSome result (λ made. L.lane made 0 < 2 ^ bits L.width) }
{
    let mut lanes = lanes;
    let mut count = L::count();
    while 1 < count {
        count /= 2;
        lanes = combined::<L>(op, lanes, moved_down::<L>(lanes, count))?;
    }
    Some(lanes)
}

/// The element in lane 0.
fn first_lane<L: Lane>(lanes: L::Vector) -> L
    requires { L.lane lanes 0 < 2 ^ bits L.width }
    ensures { L.value result ≡ L.lane lanes 0 }
{
    let mut bytes = [0; 32];
    L::to_bytes(lanes).copy_to_slice(&mut bytes);
    L::load(&bytes, 0)
}

/// A vector whose lanes together combine to the result for the active elements of the first `chunks` chunks, or
/// `None` if SIMD instructions don't compute it.
fn lanes_of_chunks<L: Lane>(
    op: ReduceOp,
    elements: &[u8],
    body: &Body<'_>,
    chunks: usize,
) -> Option<L::Vector>
    requires inside { L.count * chunks ≤ GROUP_BYTES }
    ensures value { IfSome result (λ made.
        total (combination op L.width) (neutral_number op L.width) (L.lane made) L.count
        ≡ total (combination op L.width) (neutral_number op L.width)
        (λ i. if is_active body.now i then element (width_bytes L.width) elements.now i
        else neutral_number op L.width) (L.count * chunks)) }
    ensures bound { IfSome result (λ made. (i : ℕ) → i < L.count → L.lane made i < 2 ^ bits L.width) }
{
    let mut lanes = neutral::<L>(op);
    for c in 0..chunks {
        let elements = operand_chunk::<L>(elements, c)?;
        let active = active_bits(body, L::count() * c, L::count());
        lanes = combined::<L>(op, lanes, active_or_neutral::<L>(op, elements, active))?;
    }
    Some(lanes)
}

/// The combination of `first` with the active elements of the whole chunks, or `None` if SIMD instructions don't
/// compute it.
pub(crate) fn reduce_chunks<L: Lane>(
    op: ReduceOp,
    first: L,
    elements: &[u8],
    body: &Body<'_>,
) -> Option<Combined<L>>
    ensures { IfSome result (λ made. L.value made.number
        ≡ fold (combination op L.width) (L.value first)
        (map (element (width_bytes L.width) elements.now)
        (filter (is_active body.now) (range_with_len 0 made.count)))) }
{
    let chunks = (elements.len() / 32).min(body.end().div_ceil(L::count()));
    let lanes = lanes_of_chunks::<L>(op, elements, body, chunks)?;
    let number = first_lane::<L>(combined_lanes::<L>(op, lanes)?);
    let first = L::low_bits(first.number()); // for the proof alone: the number is below 2 to the width
    Some(Combined {
        number: apply(combining(op), first, number),
        count: L::count() * chunks,
    })
}
