//! Moves of elements ("V" Vector Extension 1.0, section 11.16).
ghost use Rattle.std.specs.Prelude.{◌≡◌, ℕ};
ghost use Rattle.rv_model.specs.elements.Elements.{element};
ghost use Rattle.rv_model.specs.lending.Writes.{HasElement};
ghost use Rattle.rv_model.specs.vector.Groups.{width_bytes};

use crate::lane::Lane;
use crate::results::Results;

/// Copies of `b`, the elements of the only operand.
#[derive(Clone, Copy)]
pub struct Copies<'a> {
    pub b: &'a [u8],
}

impl<'a, L: Lane> Results<L> for Copies<'a> {
    ghost number = { λ r i. element (width_bytes L.width) r.b.now i };

    ghost has = { λ r i. HasElement (width_bytes L.width) r.b.now i };

    fn result(&self, index: usize) -> L {
        L::load(self.b, index)
    }
}
