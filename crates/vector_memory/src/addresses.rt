//! The addresses of the segments of a load or store ("V" Vector Extension 1.0, sections 7.4 to 7.6).
ghost use Rattle.std.specs.Prelude.{◌≡◌, ◌+◌, ◌*◌, ◌/◌, ◌%◌, ◌^◌, ◌<◌, ℕ, IfSome, length};
ghost use Rattle.rv_model.specs.elements.Elements.{element};
ghost use Rattle.rv_model.specs.vector.Groups.{element_width, sew_width, width_bytes};

use lane_arith::Lane;
use rv_model::instructions::operations::Eew;

/// Addresses of the segments of a load or store, by index.
pub(crate) trait Addresses: Copy {
    // The address at an index.
    ghost address: { Self → ℕ → ℕ };

    // The number of indices that have an address.
    ghost count: { Self → ℕ };

    /// Return the address of the segment at an index.
    fn address(&self, index: usize) -> u64
        requires { index < count self.now }
        ensures { result ≡ address self.now index };

    /// Return the distance in bytes from the start of each segment to the start of the next, if it is
    /// constant.
    fn distance(&self) -> Option<usize>
        ensures { IfSome result (λ distance. (i k : ℕ)
            → address self.now (i + k) ≡ (address self.now i + k * distance) % 2 ^ 64) };
}

/// Addresses from `base` on, `stride` bytes apart, modulo 2 ^ 64.
#[derive(Clone, Copy)]
pub(crate) struct Strided {
    pub base: u64,
    pub stride: u64,
}

impl Addresses for Strided {
    ghost address = { λ s i. (s.base + i * s.stride) % 2 ^ 64 };

    ghost count = { λ s. 2 ^ 64 };

    #[inline(always)]
    fn address(&self, index: usize) -> u64 {
        self.base
            .wrapping_add(self.stride.wrapping_mul(index as u64))
    }

    #[tactic(auto, using(crate::proofs::Strides::steps))]
    #[inline(always)]
    fn distance(&self) -> Option<usize> {
        Some(self.stride as usize)
    }
}

/// Addresses at offsets from `base`, modulo 2 ^ 64; the offsets are unsigned numbers of a width, in bytes.
#[derive(Clone, Copy)]
pub(crate) struct Indexed<'a> {
    pub base: u64,
    pub offsets: &'a [u8],
    pub width: Eew,
}

impl Addresses for Indexed<'_> {
    ghost address = { λ s i. (s.base
        + element (width_bytes (sew_width (element_width s.width))) s.offsets.now i) % 2 ^ 64 };

    ghost count = { λ s. length s.offsets.now / width_bytes (sew_width (element_width s.width)) };

    #[inline(always)]
    fn address(&self, index: usize) -> u64 {
        let offset = match self.width {
            Eew::E8 => u8::load(self.offsets, index).number(),
            Eew::E16 => u16::load(self.offsets, index).number(),
            Eew::E32 => u32::load(self.offsets, index).number(),
            Eew::E64 => u64::load(self.offsets, index).number(),
        };
        self.base.wrapping_add(offset)
    }

    #[inline(always)]
    fn distance(&self) -> Option<usize> {
        None
    }
}
