//! Kernels of the reductions ("V" Vector Extension 1.0, chapter 14).
#![tactic(auto)]

mod chunk;
mod combine;
mod lanes;
mod operations;

pub use combine::{Combine, Combined, reduce};
pub use operations::{Reduction, WideningReduction};
