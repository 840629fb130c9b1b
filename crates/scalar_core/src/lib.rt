//! Arithmetic of RV64IM: the result of each operation on scalar registers, and the values of immediates.
#![tactic(auto)]

mod arithmetic;
mod comparison;
mod division;
mod extension;
mod immediate_operations;
mod immediates;
mod product;
mod shift;

pub use arithmetic::alu;
pub use comparison::branch;
pub use extension::sign_extend;
pub use immediate_operations::{
    register_immediate, shift_immediate, shift_immediate_word, upper_immediate,
};
pub use immediates::{b_immediate, i_immediate, j_immediate, s_immediate};
pub use product::{full_mixed, full_signed};
