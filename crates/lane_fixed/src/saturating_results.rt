//! Writing of results that may saturate to the elements of a destination ("V" Vector Extension 1.0, sections 3.9,
//! 5.3 and 5.4).
ghost use Rattle.std.specs.Prelude.{◌≡◌, ◌+◌, ◌*◌, ◌/◌, ◌%◌, ◌^◌, ◌<◌, ◌≤◌, ◌==◌, ◌&&◌, ℕ, Bool, IfSome, length, false};
ghost use Rattle.std.specs.Prelude.{nat_lt, not};
ghost use Rattle.std.specs.List.{list_any, range_with_len};
ghost use Rattle.rv_model.specs.elements.Elements.{is_active, is_changed, result_or_ones, some_active};
ghost use Rattle.rv_model.specs.elements.Formulas.{ones};
ghost use Rattle.rv_model.specs.lending.Writes.{Writes};
ghost use Rattle.rv_model.specs.vector.Groups.{width_bytes};
ghost use Rattle.rv_model.specs.declared.vector.state.RoundingMode.{RoundingMode};

use crate::rounding::{Rounding, ToDown, ToNearestEven, ToNearestUp, ToOdd};
use lane_arith::{Body, Lane, active_bits, filled_bits, put_results};
use rv_model::{GROUP_BYTES, RoundingMode};

/// An element of a result, and whether it is saturated: the nearest number of the width rather than the exact
/// number.
#[derive(Clone, Copy, Drop)]
pub struct Saturated<L> {
    pub value: L,
    pub saturated: bool,
}

/// The elements of a chunk of 32 bytes of a result, as a SIMD vector. Bit i of `saturated` says whether element i
/// is saturated.
#[derive(Clone, Copy, Drop)]
pub struct SaturatedChunk<V> {
    pub values: V,
    pub saturated: u64,
}

/// The results of an instruction for the elements of its destination, which have the width of `L`.
pub trait SaturatingResults<L: Lane>: Copy {
    // The result for the element at an index, as an unsigned number.
    ghost number: { Self → ℕ → ℕ };

    // Whether that result is saturated.
    ghost saturates: { Self → ℕ → Bool };

    // The operands have an element at this index.
    ghost has: { Self → ℕ → Type 0 };

    // The rounding mode.
    ghost mode: { Self → RoundingMode };

    /// The rounding mode.
    fn mode(&self) -> RoundingMode
        ensures { result ≡ mode self.now };

    /// Return the result for the element at an index, with the rounding mode as a type.
    fn result_in<M: Rounding>(&self, index: usize) -> Saturated<L>
        requires has { has self.now index }
        requires mode { M.mode ≡ mode self.now }
        ensures value { L.value result.value ≡ number self.now index }
        ensures saturated { result.saturated ≡ saturates self.now index };

    /// Return the result for the element at an index.
    fn result(&self, index: usize) -> Saturated<L>
        requires { has self.now index }
        ensures value { L.value result.value ≡ number self.now index }
        ensures saturated { result.saturated ≡ saturates self.now index }
    {
        match self.mode() {
            RoundingMode::NearestUp => self.result_in::<ToNearestUp>(index),
            RoundingMode::NearestEven => self.result_in::<ToNearestEven>(index),
            RoundingMode::Down => self.result_in::<ToDown>(index),
            RoundingMode::Odd => self.result_in::<ToOdd>(index),
        }
    }

    /// Return the results for the elements of a chunk of 32 bytes, or `None` if SIMD instructions don't compute
    /// them.
    fn chunk_results(&self, _chunk: usize) -> Option<SaturatedChunk<L::Vector>>
        requires { L.count * _chunk + L.count ≤ GROUP_BYTES }
        ensures value { IfSome result (λ made. (i : ℕ) → i < L.count → L.lane made.values i
            ≡ number self.now (L.count * _chunk + i)) }
        ensures saturated { IfSome result (λ made. (i : ℕ) → i < L.count
            → (made.saturated / 2 ^ i % 2 == 0) ≡ not (saturates self.now (L.count * _chunk + i))) }
        ensures bound { IfSome result (λ made. made.saturated < 2 ^ L.count) }
    {
        None
    }
}

/// `write_saturating_results` for one element at a time, in one rounding mode. The function copies `results` and
/// `body`, which no store to the destination can change, so that the compiler moves tests of their fields out of
/// the loop.
#[inline(never)]
fn write_each<L: Lane, R: SaturatingResults<L>, M: Rounding>(
    results: &R,
    body: &Body<'_>,
    destination: &mut [u8],
    fill_masked_off: bool,
) -> bool
    requires operands { (i : ℕ) → i < body.now.end → R.has results.now i }
    requires room { width_bytes L.width * body.now.end ≤ length destination.old }
    requires mode { M.mode ≡ R.mode results.now }
    ensures writes { Writes (width_bytes L.width) (is_changed body.now fill_masked_off false)
        (result_or_ones body.now (R.number results.now) (ones L.width)) destination.old destination.new }
    ensures saturated { result ≡ some_active body.now (R.saturates results.now) }
{
    let results = *results;
    let body = body.copied();
    let mut saturated = false;
    for i in body.start()..body.end() {
        if body.is_enabled(i) {
            let result = results.result_in::<M>(i);
            result.value.store(destination, i);
            saturated |= result.saturated;
        } else if fill_masked_off {
            L::all_ones().store(destination, i);
        }
    }
    saturated
}

/// `write_saturating_results` for one element at a time, in the rounding mode of the results.
#[inline(never)]
fn write_rest<L: Lane, R: SaturatingResults<L>>(
    results: &R,
    body: &Body<'_>,
    destination: &mut [u8],
    fill_masked_off: bool,
) -> bool
    requires operands { (i : ℕ) → i < body.now.end → R.has results.now i }
    requires room { width_bytes L.width * body.now.end ≤ length destination.old }
    ensures writes { Writes (width_bytes L.width) (is_changed body.now fill_masked_off false)
        (result_or_ones body.now (R.number results.now) (ones L.width)) destination.old destination.new }
    ensures saturated { result ≡ some_active body.now (R.saturates results.now) }
{
    let fill = fill_masked_off;
    match results.mode() {
        RoundingMode::NearestUp => write_each::<L, R, ToNearestUp>(
            results,
            body,
            destination,
            fill,
        ),
        RoundingMode::NearestEven => {
            write_each::<L, R, ToNearestEven>(results, body, destination, fill)
        }
        RoundingMode::Down => write_each::<L, R, ToDown>(results, body, destination, fill),
        RoundingMode::Odd => write_each::<L, R, ToOdd>(results, body, destination, fill),
    }
}

/// Progress of a write: the index of the first element that isn't processed, and whether an active one before it
/// saturated.
#[derive(Drop)]
struct Progress {
    left: usize,
    saturated: bool,
}

/// `write_saturating_results` for one chunk of 32 bytes at a time, up to the first chunk whose results SIMD
/// instructions don't compute.
fn write_chunks<L: Lane, R: SaturatingResults<L>>(
    results: &R,
    body: &Body<'_>,
    destination: &mut [u8],
    fill_masked_off: bool,
) -> Progress
    ensures writes { Writes (width_bytes L.width)
        (λ e. is_changed body.now fill_masked_off false e && nat_lt e result.left)
        (result_or_ones body.now (R.number results.now) (ones L.width)) destination.old destination.new }
    ensures saturated { result.saturated
        ≡ list_any (λ e. is_active body.now e && R.saturates results.now e) (range_with_len 0 result.left) }
{
    let count = L::count();
    let whole = (destination.len() / 32).min(body.end().div_ceil(count));
    let mut saturated = false;
    for c in 0..whole {
        let Some(made) = results.chunk_results(c) else {
            return Progress {
                left: count * c,
                saturated,
            };
        };
        let active = active_bits(body, count * c, count);
        let filled = filled_bits(body, fill_masked_off, count * c, count);
        put_results::<L>(made.values, active, filled, 32 * c, destination);
        saturated |= made.saturated & active != 0;
    }
    Progress {
        left: count * whole,
        saturated,
    }
}

/// Write the result to each active element of the destination. Return whether one of these saturated, so that the
/// caller sets vxsat (section 3.9). If `fill_masked_off`, masked-off elements of the body become all ones. All
/// other elements are unchanged.
pub fn write_saturating_results<L: Lane, R: SaturatingResults<L>>(
    results: &R,
    body: &Body<'_>,
    destination: &mut [u8],
    fill_masked_off: bool,
) -> bool
    requires operands { (i : ℕ) → i < body.now.end → R.has results.now i }
    requires room { width_bytes L.width * body.now.end ≤ length destination.old }
    ensures writes { Writes (width_bytes L.width) (is_changed body.now fill_masked_off false)
        (result_or_ones body.now (R.number results.now) (ones L.width)) destination.old destination.new }
    ensures saturated { result ≡ some_active body.now (R.saturates results.now) }
{
    let done = write_chunks(results, body, destination, fill_masked_off);
    let start = body.start().max(done.left);
    let end = body.end();
    if start < end {
        // Only this copy has to be in memory, since `write_rest` isn't inlined.
        let results = *results;
        let rest = Body::new(body.is_unmasked(), body.mask(), start, end);
        done.saturated | write_rest(&results, &rest, destination, fill_masked_off)
    } else {
        done.saturated
    }
}
