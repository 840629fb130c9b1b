//! The vector length and the vector type after a vset instruction.
#![tactic(auto)]

mod configuration;
mod type_numbers;

pub use configuration::set;
pub use type_numbers::{vector_type, vtype_number};
