//! Vector operations with their own row in the manual's table, with their operands ("V" Vector Extension 1.0, sections
//! 10.1 and 19).
use crate::instructions::operands::VReg;
use crate::instructions::pairs::Arith;

/// A vector operation with its second source. The first source is the register group from `vs2` on, and the destination
/// is the register group from `vd` on. The mask is v0, unless the operation is unmasked.
#[derive(Clone, Copy)]
pub struct ArithOperation {
    pub arith: Arith,
    pub vd: VReg,
    pub vs2: VReg,
    pub unmasked: bool,
}
