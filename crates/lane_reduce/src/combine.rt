//! Combination of the active elements of a body with an initial number ("V" Vector Extension 1.0, chapter 14).
ghost use Rattle.std.specs.Prelude.{◌≡◌, ◌*◌, ◌≤◌, ℕ, IfSome, length, map};
ghost use Rattle.std.specs.List.{filter, fold, range_with_len};
ghost use Rattle.rv_model.specs.elements.Elements.{element, is_active};
ghost use Rattle.rv_model.specs.elements.Reductions.{active_numbers};
ghost use Rattle.rv_model.specs.vector.Groups.{width_bytes};

use lane_arith::{Body, Lane};

/// The combination of an initial number with the active ones of the first `count` elements.
#[derive(Clone, Copy)]
pub struct Combined<R> {
    pub number: R,
    pub count: usize,
}

/// The operation of a reduction of elements of the width of `E` to a result of the width of `R`.
pub trait Combine<E: Lane, R: Lane> {
    // The combination of the result so far with an element, as unsigned numbers.
    ghost combined: { Self → ℕ → ℕ → ℕ };

    /// Return the combination of the result so far with one more element.
    fn combined(&self, so_far: R, element: E) -> R
        ensures { R.value result ≡ combined self.now (R.value so_far) (E.value element) };

    /// Return the combination of an initial number with the active elements of the first whole chunks of 32 bytes,
    /// or `None` if SIMD instructions don't compute it.
    fn combined_chunks(&self, _first: R, _elements: &[u8], _body: &Body<'_>) -> Option<Combined<R>>
        ensures { IfSome result (λ made. R.value made.number ≡ fold (combined self.now) (R.value _first)
            (map (element (width_bytes E.width) _elements.now)
            (filter (is_active _body.now) (range_with_len 0 made.count)))) }
    {
        None
    }
}

/// Combine `first` with each active element, in order, and return the result.
pub fn reduce<E: Lane, R: Lane, C: Combine<E, R>>(
    combine: &C,
    first: R,
    elements: &[u8],
    body: &Body<'_>,
) -> R
    requires room { width_bytes E.width * body.now.end ≤ length elements.now }
    ensures { R.value result ≡ fold (C.combined combine.now) (R.value first)
        (active_numbers body.now (element (width_bytes E.width) elements.now)) }
{
    let Combined { number, count } = combine
        .combined_chunks(first, elements, body)
        .unwrap_or(Combined {
            number: first,
            count: 0,
        });
    let mut so_far = number;
    for i in count..body.end() {
        if body.is_active(i) {
            so_far = combine.combined(so_far, E::load(elements, i));
        }
    }
    so_far
}
