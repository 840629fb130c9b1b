//! Kernels of fixed-point operations, generic over the width of an element.
#![tactic(auto)]

mod chunk;
mod clip;
mod exact;
mod fixed_point;
mod rounding;
mod saturating_results;
mod saturation;

pub use clip::Clip;
pub use fixed_point::FixedPoint;
pub use rounding::Rounding;
pub use saturating_results::{
    Saturated, SaturatedChunk, SaturatingResults, write_saturating_results,
};
