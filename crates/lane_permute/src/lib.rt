//! Kernels of permutations of elements, generic over the width of an element ("V" Vector Extension 1.0, chapter
//! 16). Slides and gathers implement `Results` for `lane_arith::write_results`.
#![tactic(auto)]

mod gathers;
mod moved;
mod packing;
mod slides;

pub use gathers::{Gather, GatherOne};
pub use packing::compress;
pub use slides::{SlideDown, SlideOneDown, SlideOneUp, SlideUp};
