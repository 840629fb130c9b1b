//! The elements that an instruction processes ("V" Vector Extension 1.0, sections 5.3 and 5.4).
ghost use Rattle.std.specs.Prelude.{◌≡◌, ◌<◌, ◌≤◌};
ghost use Rattle.rv_model.specs.elements.Elements.{is_active, is_enabled};

use rv_model::{GROUP_BYTES, VLENB};
use std::marker::Model;

/// The body of an instruction: the elements from `start`, which is vstart, up to `end`, which is vl, excluding
/// `end`. Unless the instruction is unmasked, `mask` says which of them are active.
#[derive(Drop)]
pub struct Body<'a> {
    unmasked: bool,
    mask: &'a [u8; VLENB],
    start: usize,
    end: usize,
}

impl<'a> Model for Body<'a> {
    ghost use Rattle.std.specs.Prelude.{◌≤◌};
    ghost use Rattle.rv_model.specs.declared.vector.sizes.TheConstants.{GROUP_BYTES};
    ghost use Rattle.rv_model.specs.elements.Elements.{Body};

    ghost Value = { Body };

    ghost view = { λ b. record { unmasked = b.unmasked; mask = b.mask.now; start = b.start; end = b.end } };

    ghost invariant = { λ b. b.end ≤ GROUP_BYTES };
}

impl<'a> Body<'a> {
    /// Return the body with the elements from `start` up to `end`, excluding `end`, which is at most the number of
    /// elements of the largest group. Unless `unmasked`, bit i of `mask` says whether element i is active.
    pub fn new(unmasked: bool, mask: &'a [u8; VLENB], start: usize, end: usize) -> Body<'a>
        requires { end ≤ GROUP_BYTES }
        ensures { result ≡ record { unmasked = unmasked; mask = mask.now; start = start; end = end } }
    {
        Body {
            unmasked,
            mask,
            start,
            end,
        }
    }

    /// Return a copy of the body with the same borrowed mask.
    pub fn copied(&self) -> Body<'a>
        ensures { result ≡ self.now }
    {
        Body::new(self.unmasked, self.mask, self.start, self.end)
    }

    /// Return whether the instruction is unmasked: all elements of the body are active.
    pub fn is_unmasked(&self) -> bool
        ensures { result ≡ self.now.unmasked }
    {
        self.unmasked
    }

    /// Return the mask, even if the instruction is unmasked.
    pub fn mask(&self) -> &[u8; VLENB]
        ensures { result.now ≡ self.now.mask }
    {
        self.mask
    }

    /// Return the index of the first element.
    pub fn start(&self) -> usize
        ensures { result ≡ self.now.start }
    {
        self.start
    }

    /// Return the index after the last element, at most 256.
    pub fn end(&self) -> usize
        ensures value { result ≡ self.now.end }
        ensures bound { result ≤ GROUP_BYTES }
    {
        self.end
    }

    /// Return whether the mask enables an element, or the instruction is unmasked.
    pub fn is_enabled(&self, index: usize) -> bool
        requires { index < GROUP_BYTES }
        ensures { result ≡ is_enabled self.now index }
    {
        self.unmasked || self.mask[index / 8] >> (index % 8) & 1 == 1
    }

    /// Return whether an element is active: in the body and enabled by the mask.
    pub fn is_active(&self, index: usize) -> bool
        ensures { result ≡ is_active self.now index }
    {
        self.start <= index && index < self.end && self.is_enabled(index)
    }
}
