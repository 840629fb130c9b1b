//! Text of one line: splits command lines and parses their arguments; prints numbers and stops into a reply.
#![tactic(auto)]

mod argument_list;
mod arguments;
mod numerals;
mod reply;
mod stops;

pub use argument_list::{Arguments, done};
pub use arguments::{
    address, count, element_width, instruction_address, permissions, policy, scalar_register, user,
    vector_register,
};
pub use numerals::{push_addresses, push_bytes, push_decimal, push_hex8, push_hex16};
pub use reply::Reply;
pub use stops::{push_pc, push_stop};
