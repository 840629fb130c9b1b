//! The second operand of a vector operation.
use crate::instructions::operands::{Field, Reg, VReg};

/// The second operand of a vector operation: vs1, rs1 or a 5-bit immediate, each at bits 19 to 15.
#[derive(Clone, Copy)]
pub enum Source {
    V(VReg),
    X(Reg),
    I(Field<5>),
}
