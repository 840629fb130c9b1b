//! The vector state of a machine ("V" Vector Extension 1.0, section 3).
use crate::vector::file::VFile;
use crate::vector::sizes::GROUP_BYTES;
use crate::vector::types::VType;
use std::marker::Model;

/// The vector length `vl` in elements, at most VLMAX, and `vtype`: a type that the machine supports, or `vill` alone
/// (sections 3.4 and 3.5).
#[derive(Clone, Copy)]
pub struct VConf {
    vl: u16,
    vtype: Option<VType>,
}

impl Model for VConf {
    ghost use Rattle.rv_model.specs.vector.Groups.{Configuration, IsConfiguration};

    ghost Value = { Configuration };

    ghost view = { λ c. record { vl = c.vl; vtype = c.vtype } };

    ghost invariant = { λ c. IsConfiguration (record { vl = c.vl; vtype = c.vtype }) };

    ghost inverse = { λ v. record { vl = v.vl; vtype = v.vtype } };
}

impl VConf {
    ghost use Rattle.std.specs.Prelude.{◌≡◌, ◌≤◌, IfSome};
    ghost use Rattle.rv_model.specs.vector.Groups.{initial_configuration, IsConfiguration, IsSupported, vlmax};

    /// Return the configuration with `vill` set and length 0.
    pub fn vill() -> VConf
        ensures { result ≡ initial_configuration }
    {
        VConf { vl: 0, vtype: None }
    }

    /// Return the configuration with a supported vector type and a length in elements, at most VLMAX.
    pub fn new(vl: u16, vtype: VType) -> VConf
        requires supported { IsSupported vtype }
        requires length { vl ≤ vlmax vtype }
        ensures { result ≡ record { vl = vl; vtype = Some vtype } }
    {
        VConf {
            vl,
            vtype: Some(vtype),
        }
    }

    /// Return the vector length in elements, 0 to 256.
    #[tactic(auto, using(crate::proofs::legality_lemmas::Bounds::configuration_below))]
    pub fn vl(self) -> u16
        ensures value { result ≡ self.vl }
        ensures bound { result ≤ GROUP_BYTES }
    {
        self.vl
    }

    /// A law, without effect: the vector length is at most VLMAX of the vector type, and 0 with `vill`.
    pub fn length_law(self)
        ensures { IsConfiguration self }
    {}

    /// Return the configuration with the same vector type and a length in elements, at most the present one.
    pub fn shortened(self, vl: u16) -> VConf
        requires { vl ≤ self.vl }
        ensures { result ≡ record self { vl = vl } }
    {
        VConf { vl, ..self }
    }

    /// Return the vector type, or `None` for `vill`.
    pub fn vtype(self) -> Option<VType>
        ensures value { result ≡ self.vtype }
        ensures supported { IfSome result (λ t. IsSupported t) }
        ensures length { IfSome result (λ t. self.vl ≤ vlmax t) }
    {
        self.vtype
    }
}

/// The fixed-point rounding mode (section 3.8, `vxrm`).
#[derive(Clone, Copy, PartialEq, Eq)]
pub enum RoundingMode {
    NearestUp,
    NearestEven,
    Down,
    Odd,
}

impl RoundingMode {
    ghost use Rattle.std.specs.Prelude.{◌≡◌};
    ghost use Rattle.rv_model.specs.vector.RoundingModes.{rounding_mode, rounding_number};

    /// Return the number of the mode in `vxrm`, 0 to 3.
    pub fn number(self) -> u8
        ensures { result ≡ rounding_number self }
    {
        match self {
            RoundingMode::NearestUp => 0,
            RoundingMode::NearestEven => 1,
            RoundingMode::Down => 2,
            RoundingMode::Odd => 3,
        }
    }

    /// Return the mode that the low two bits of a number encode.
    pub fn with_number(number: u64) -> RoundingMode
        ensures { result ≡ rounding_mode number }
    {
        match number % 4 {
            0 => RoundingMode::NearestUp,
            1 => RoundingMode::NearestEven,
            2 => RoundingMode::Down,
            _ => RoundingMode::Odd,
        }
    }
}

/// The vector state of a machine: the registers, `vl` and `vtype`, `vstart` below 256, the rounding mode and the
/// saturation flag `vxsat`. Sections 3.1, 3.4, 3.5 and 3.7 to 3.9 define them.
#[derive(Drop)]
pub struct VState {
    pub file: VFile,
    pub conf: VConf,
    pub vstart: u8,
    pub vxrm: RoundingMode,
    pub vxsat: bool,
}

impl VState {
    ghost use Rattle.std.specs.Prelude.{◌≡◌};
    ghost use Rattle.rv_model.specs.vector.State.{initial_vector};

    /// Return the initial state: zeros, with `vill` set.
    #[tactic(auto, unfolding(crate::specs::vector::State::initial_vector))]
    pub fn new() -> VState
        ensures { result ≡ initial_vector }
    {
        VState {
            file: VFile::new(),
            conf: VConf::vill(),
            vstart: 0,
            vxrm: RoundingMode::NearestUp,
            vxsat: false,
        }
    }

    /// Copy all of another vector state.
    pub fn copy_from(&mut self, other: &VState)
        ensures { self.new ≡ other.now }
    {
        self.file.copy_from(&other.file);
        self.conf = other.conf;
        self.vstart = other.vstart;
        self.vxrm = other.vxrm;
        self.vxsat = other.vxsat;
    }
}

/// A borrowed vector state, and whether it was changed since it was last saved.
#[derive(Drop)]
pub struct Seat {
    pub state: VState,
    pub dirty: bool,
}
