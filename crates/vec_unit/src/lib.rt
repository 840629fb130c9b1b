//! Execution of one vector instruction of one user.
//!
//! Read `execution` first, then `arithmetic`, `operation` and `destination`, and `memory_instructions`. Each other
//! module is a family of operations. `in_place` is a faster path of `binary`, with the same results as its path with
//! copies.
#![tactic(auto)]

mod arithmetic;
mod binary;
mod body;
mod clip;
mod compare;
mod compress;
mod destination;
mod execution;
mod extend;
mod first_element;
mod fixed_point;
mod in_place;
mod mask_operand;
mod mask_operations;
mod masks;
mod memory_instructions;
mod moves;
mod multiply_add;
mod narrow_shift;
mod operands;
mod operation;
mod other_operations;
mod permute;
mod reduce;
mod scalar_moves;
mod tails;
mod two_widths;
mod vset;
mod whole_moves;
mod widen;

pub use execution::{exec, exec_arith, exec_operation};
pub use memory_instructions::exec_access;
pub use rv_model::VEnd;
