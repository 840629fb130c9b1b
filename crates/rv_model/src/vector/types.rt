//! The vector type ("V" Vector Extension 1.0, section 3.4).
use crate::instructions::operations::Eew;
use crate::vector::sizes::VLENB;

/// An element width in bits, such as the selected one, SEW (section 3.4.1, `vsew`).
#[derive(Clone, Copy, PartialEq, Eq)]
pub enum Sew {
    E8,
    E16,
    E32,
    E64,
}

/// Every element width.
static SEWS: [Sew; 4] = [Sew::E8, Sew::E16, Sew::E32, Sew::E64];

impl Sew {
    ghost use Rattle.std.specs.Prelude.{◌≡◌, ◌<◌, ◌≤◌, IfSome, length};
    ghost use Rattle.rv_model.specs.vector.Groups.{element_width, sew_bits};
    ghost use Rattle.rv_model.specs.vector.TypeNames.{sew_name, with_name, sews};
    ghost use Rattle.rv_model.specs.vector.TypeRules.{sew_number, sew_with_number};

    /// Return the element width that a load or store encodes (section 7.3).
    pub fn from_width(width: Eew) -> Sew
        ensures { result ≡ element_width width }
    {
        match width {
            Eew::E8 => Sew::E8,
            Eew::E16 => Sew::E16,
            Eew::E32 => Sew::E32,
            Eew::E64 => Sew::E64,
        }
    }

    /// Return the width in bits, 8 to 64.
    pub fn bits(self) -> u16
        ensures { result ≡ sew_bits self }
    {
        match self {
            Sew::E8 => 8,
            Sew::E16 => 16,
            Sew::E32 => 32,
            Sew::E64 => 64,
        }
    }

    /// Return `vsew` of the width, 0 to 3 (section 3.4.1).
    pub fn number(self) -> u8
        ensures value { result ≡ sew_number self }
        ensures small { result < 4 }
    {
        match self {
            Sew::E8 => 0,
            Sew::E16 => 1,
            Sew::E32 => 2,
            Sew::E64 => 3,
        }
    }

    /// Return the width with this `vsew`, or `None` for a reserved one.
    pub fn with_number(number: u8) -> Option<Sew>
        ensures value { result ≡ sew_with_number number }
        ensures number { IfSome result (λ sew. sew_number sew ≡ number) }
    {
        match number {
            0 => Some(Sew::E8),
            1 => Some(Sew::E16),
            2 => Some(Sew::E32),
            3 => Some(Sew::E64),
            _ => None,
        }
    }

    /// Return the name in assembler text, at most 3 bytes (section 6.1).
    pub fn name(self) -> &'static str
        ensures value { result.now ≡ sew_name self }
        ensures short { length result.now ≤ 3 }
    {
        match self {
            Sew::E8 => "e8",
            Sew::E16 => "e16",
            Sew::E32 => "e32",
            Sew::E64 => "e64",
        }
    }

    /// Return the width with this name, or `None` if no width has it.
    pub fn with_name(name: &[u8]) -> Option<Sew>
        ensures { result ≡ with_name sew_name sews name.now }
    {
        SEWS.iter()
            .copied()
            .find(|sew| sew.name().as_bytes() == name)
    }
}

/// The vector register group multiplier, from an eighth of a register to eight registers
/// (section 3.4.2, `vlmul`).
#[derive(Clone, Copy, PartialEq, Eq)]
pub enum Lmul {
    Mf8,
    Mf4,
    Mf2,
    M1,
    M2,
    M4,
    M8,
}

/// Every group multiplier.
static LMULS: [Lmul; 7] = [
    Lmul::Mf8,
    Lmul::Mf4,
    Lmul::Mf2,
    Lmul::M1,
    Lmul::M2,
    Lmul::M4,
    Lmul::M8,
];

impl Lmul {
    ghost use Rattle.std.specs.Prelude.{◌≡◌, ◌<◌, ◌≤◌, IfSome, length};
    ghost use Rattle.rv_model.specs.vector.Groups.{lmul_eighths};
    ghost use Rattle.rv_model.specs.vector.TypeNames.{lmul_name, with_name, lmuls};
    ghost use Rattle.rv_model.specs.vector.TypeRules.{lmul_number, lmul_with_number};

    /// Return the multiplier in eighths of a register, 1 to 64.
    pub fn eighths(self) -> u16
        ensures { result ≡ lmul_eighths self }
    {
        match self {
            Lmul::Mf8 => 1,
            Lmul::Mf4 => 2,
            Lmul::Mf2 => 4,
            Lmul::M1 => 8,
            Lmul::M2 => 16,
            Lmul::M4 => 32,
            Lmul::M8 => 64,
        }
    }

    /// Return `vlmul` of the multiplier, 0 to 7 (section 3.4.2).
    pub fn number(self) -> u8
        ensures value { result ≡ lmul_number self }
        ensures small { result < 8 }
    {
        match self {
            Lmul::M1 => 0,
            Lmul::M2 => 1,
            Lmul::M4 => 2,
            Lmul::M8 => 3,
            Lmul::Mf8 => 5,
            Lmul::Mf4 => 6,
            Lmul::Mf2 => 7,
        }
    }

    /// Return the multiplier with this `vlmul`, or `None` for a reserved one.
    pub fn with_number(number: u8) -> Option<Lmul>
        ensures value { result ≡ lmul_with_number number }
        ensures number { IfSome result (λ lmul. lmul_number lmul ≡ number) }
    {
        match number {
            0 => Some(Lmul::M1),
            1 => Some(Lmul::M2),
            2 => Some(Lmul::M4),
            3 => Some(Lmul::M8),
            5 => Some(Lmul::Mf8),
            6 => Some(Lmul::Mf4),
            7 => Some(Lmul::Mf2),
            _ => None,
        }
    }

    /// Return the name in assembler text, at most 3 bytes (section 6.1).
    pub fn name(self) -> &'static str
        ensures value { result.now ≡ lmul_name self }
        ensures short { length result.now ≤ 3 }
    {
        match self {
            Lmul::Mf8 => "mf8",
            Lmul::Mf4 => "mf4",
            Lmul::Mf2 => "mf2",
            Lmul::M1 => "m1",
            Lmul::M2 => "m2",
            Lmul::M4 => "m4",
            Lmul::M8 => "m8",
        }
    }

    /// Return the multiplier with this name, or `None` if no multiplier has it.
    pub fn with_name(name: &[u8]) -> Option<Lmul>
        ensures { result ≡ with_name lmul_name lmuls name.now }
    {
        LMULS
            .iter()
            .copied()
            .find(|lmul| lmul.name().as_bytes() == name)
    }
}

/// The fields of a `vtype` without `vill` (section 3.4).
#[derive(Clone, Copy, PartialEq, Eq)]
pub struct VType {
    pub sew: Sew,
    pub lmul: Lmul,
    pub tail_agnostic: bool,
    pub mask_agnostic: bool,
}

impl VType {
    ghost use Rattle.std.specs.Prelude.{◌≡◌, ◌≤◌, ◌↔◌, IsTrue, length};
    ghost use Rattle.rv_model.specs.vector.Groups.{vlmax, IsSupported};
    ghost use Rattle.rv_model.specs.vector.TypeNames.{mask_name, with_name, policies, tail_name};

    /// Return VLMAX, the number of elements of a group, at most 256 (section 3.4.2).
    #[tactic(auto, using(crate::proofs::element_lemmas::Widths::vlmax_by_bytes))]
    pub fn vlmax(self) -> u16
        ensures { result ≡ vlmax self }
    {
        self.lmul.eighths() * VLENB as u16 / self.sew.bits()
    }

    /// Return whether the element width is at most LMUL x 64 bits.
    pub fn is_supported(self) -> bool
        ensures { IsTrue result ↔ IsSupported self }
    {
        self.sew.bits() <= self.lmul.eighths() * 8
    }
    /// Return the assembler name of a policy for tail elements: `ta` (agnostic) or `tu` (undisturbed) (section 6.1).
    pub fn tail_name(agnostic: bool) -> &'static str
        ensures value { result.now ≡ tail_name agnostic }
        ensures short { length result.now ≤ 2 }
    {
        if agnostic { "ta" } else { "tu" }
    }

    /// Return whether the tail policy with this name is agnostic, or `None` if the name is neither `ta` nor `tu`.
    pub fn tail_with_name(name: &[u8]) -> Option<bool>
        ensures { result ≡ with_name tail_name policies name.now }
    {
        match name {
            b"ta" => Some(true),
            b"tu" => Some(false),
            _ => None,
        }
    }

    /// Return the assembler name of a policy for masked-off elements: `ma` (agnostic) or `mu` (undisturbed) (section
    /// 6.1).
    pub fn mask_name(agnostic: bool) -> &'static str
        ensures value { result.now ≡ mask_name agnostic }
        ensures short { length result.now ≤ 2 }
    {
        if agnostic { "ma" } else { "mu" }
    }

    /// Return whether the mask policy with this name is agnostic, or `None` if the name is neither `ma` nor `mu`.
    pub fn mask_with_name(name: &[u8]) -> Option<bool>
        ensures { result ≡ with_name mask_name policies name.now }
    {
        match name {
            b"ma" => Some(true),
            b"mu" => Some(false),
            _ => None,
        }
    }
}
