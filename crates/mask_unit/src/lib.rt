//! Kernels of the mask instructions ("V" Vector Extension 1.0, chapter 15).
#![tactic(auto)]

mod chunk;
mod element_numbers;
mod logic;
mod scan;
mod set_bits;

pub use element_numbers::{Index, Iota};
pub use logic::MaskLogic;
pub use scan::MaskScan;
pub use set_bits::{count, counts_below, first};
