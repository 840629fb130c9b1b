//! The register operands of vector instructions ("V" Vector Extension 1.0, section 5.2).
use crate::instructions::VReg;

/// The use that an instruction makes of the registers of an operand.
#[derive(Clone, Copy)]
pub enum Role {
    /// A source.
    Read,
    /// The mask of a masked instruction.
    Control,
    /// No use.
    Unused,
    /// The destination.
    Write,
    /// A destination that may overlap neither a source nor the mask.
    Apart,
    /// The destination of a reduction, which may overlap any source and the mask.
    Free,
}

/// Contents of the registers of an operand.
#[derive(Clone, Copy)]
pub enum Content {
    /// A mask: elements of one bit.
    Mask,
    /// Elements of this width in bits.
    Elements(u16),
}

/// A register operand: one register group for each field of a segment, one group after another. `emul` is the
/// multiplier of one group, in eighths of a register.
#[derive(Clone, Copy)]
pub struct Operand {
    pub role: Role,
    pub first: VReg,
    pub content: Content,
    pub emul: u32,
    pub fields: u8,
}

/// Operand widths of an operation in terms of SEW, and the overlaps that its destination may have.
#[derive(Clone, Copy)]
pub enum Shape {
    /// All operands have SEW.
    Single,
    /// The destination has twice SEW.
    Widening,
    /// The destination and the first source have twice SEW.
    WideSource,
    /// The first source has twice SEW.
    Narrowing,
    /// The destination is a mask.
    Compare,
    /// All operands have SEW, and the destination may overlap no source.
    Gather,
    /// Like `Gather`, with indices of 16 bits.
    GatherIndices16,
    /// The destination and the second source are single elements.
    Reduction,
    /// Like `Reduction`, but the single elements have twice SEW.
    WideReduction,
}
