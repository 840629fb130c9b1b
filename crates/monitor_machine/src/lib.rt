//! A machine for eight users: each user's commands, slices of their programs, and the operator's
//! commands, which grant slices.
#![tactic(auto)]

mod address_set;
mod addressee;
mod answers;
mod breakpoints;
mod commands;
mod context;
mod entering;
mod image;
mod machine;
mod memory;
mod new_fault;
mod operator;
mod parts;
mod programs;
mod registers;
mod running;
mod slices;
mod stepping;
mod trace;
mod user_adapters;
mod users;

pub use image::Image;
pub use machine::Machine;
pub use new_fault::{MAX_IMAGE, NewFault};
