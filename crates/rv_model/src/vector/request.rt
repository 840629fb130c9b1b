//! The request of a vset instruction.

/// The requested number of elements ("V" Vector Extension 1.0, section 6.2, "AVL encoding").
#[derive(Clone, Copy, Debug, PartialEq, Eq)]
pub enum RequestedLength {
    /// This number of elements, or VLMAX if that is less.
    Elements(u64),
    /// VLMAX elements.
    Maximum,
    /// The present vector length, if VLMAX of the new type equals that of the old type.
    Keep,
}

/// The requested value of `vtype`, and the requested length (section 6, "Configuration-Setting Instructions").
#[derive(Clone, Copy, Debug, PartialEq, Eq)]
pub struct VectorRequest {
    pub vtype: u64,
    pub length: RequestedLength,
}
