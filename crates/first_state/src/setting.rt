//! Register that a line of a text sets, and its value.
use rv_model::{Reg, RegisterBytes, RoundingMode, VReg, VType};

/// Register and its value.
#[derive(Drop)]
pub enum Setting {
    /// One of `x1` to `x31`.
    Scalar {
        register: Reg,
        value: u64,
    },
    /// One of `v0` to `v31`.
    Vector {
        register: VReg,
        bytes: RegisterBytes,
    },
    /// `pc`.
    Counter(u64),
    /// `vl`, in elements.
    Length(u16),
    /// `vtype`; `None` is `vill`.
    Kind(Option<VType>),
    /// `vstart`.
    Start(u8),
    /// `vxrm`.
    Rounding(RoundingMode),
    /// `vxsat`.
    Saturation(bool),
}
