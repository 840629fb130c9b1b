//! Instructions: their operations, their operands, and the instructions themselves.
mod access;
mod arith_operation;
mod csr;
mod instruction;
mod operands;
pub mod operations;
mod pairs;
mod scalar;
mod source;
mod vector;
mod word_bits;

pub use access::AccessInstr;
pub use arith_operation::ArithOperation;
pub use csr::CsrInstr;
pub use instruction::Instr;
pub use operands::{Field, Reg, VReg};
pub use pairs::{Arith, Carry};
pub use scalar::ScalarInstr;
pub use source::Source;
pub use vector::VectorInstr;
pub use word_bits::bits;
