//! Elements of a second operand ("V" Vector Extension 1.0, sections 5.2 and 11.1).
ghost use Rattle.std.specs.Prelude.{◌≡◌, ◌+◌, ◌*◌, ◌%◌, ◌^◌, ◌<◌, ℕ, IfSome};
ghost use Rattle.std.specs.Int.{Width};
ghost use Rattle.rv_model.specs.elements.Elements.{element};
ghost use Rattle.rv_model.specs.lending.Writes.{HasElement};
ghost use Rattle.rv_model.specs.vector.Groups.{width_bytes};
ghost use Rattle.lane_arith.specs.SecondElements.{HasNumber, number_at};
ghost use mir.Val.{bits};

use crate::lane::Lane;
use crate::operand::operand_chunk;

/// A second operand: the elements of a vector, or one number whose low bits are used for each element. This isn't
/// an enum, since its variants would share memory, and the compiler couldn't deduce that the elements don't overlap
/// the destination.
#[derive(Clone, Copy)]
pub struct SecondElements<'a> {
    pub elements: Option<&'a [u8]>,
    pub number: u64,
}

impl<'a> SecondElements<'a> {
    /// Return an operand with these elements.
    pub fn of(elements: &'a [u8]) -> SecondElements<'a>
        ensures numbers { (w : Width) (i : ℕ) → number_at w result i ≡ element (width_bytes w) elements.now i }
        ensures has { (w : Width) (i : ℕ) → HasElement (width_bytes w) elements.now i → HasNumber w result i }
    {
        SecondElements {
            elements: Some(elements),
            number: 0,
        }
    }

    /// Return an operand with the low bits of `number` as each element.
    pub fn repeated(number: u64) -> SecondElements<'a>
        ensures numbers { (w : Width) (i : ℕ) → number_at w result i ≡ number % 2 ^ bits w }
        ensures has { (w : Width) (i : ℕ) → HasNumber w result i }
    {
        SecondElements {
            elements: None,
            number,
        }
    }

    /// Return the element at an index.
    #[inline(always)]
    pub fn element<L: Lane>(&self, index: usize) -> L
        requires { HasNumber L.width self.now index }
        ensures { L.value result ≡ number_at L.width self.now index }
    {
        match self.elements {
            Some(elements) => L::load(elements, index),
            None => L::low_bits(self.number),
        }
    }

    /// Return the elements of a chunk of 32 bytes as a SIMD vector, or `None` if the operand ends before the chunk
    /// does.
    #[inline(always)]
    pub fn chunk<L: Lane>(&self, chunk: usize) -> Option<L::Vector>
        ensures value { IfSome result (λ elements. (i : ℕ) → i < L.count
            → L.lane elements i ≡ number_at L.width self.now (L.count * chunk + i)) }
        ensures bound { IfSome result (λ elements. (i : ℕ) → i < L.count → L.lane elements i < 2 ^ bits L.width) }
    {
        match self.elements {
            Some(elements) => operand_chunk::<L>(elements, chunk),
            None => Some(L::repeated(L::low_bits(self.number))),
        }
    }
}
