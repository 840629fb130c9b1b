//! Cases of vector operations and of the instructions that set the vector length and type. tools/golden/golden_theorems writes this file from lab/tests/data/golden_vectors.
mod fixed_point;
mod masks;
mod one_width;
mod permutations;
mod reductions;
mod two_widths;
mod vector_types;

pub use fixed_point::fixed_point_agree;
pub use masks::masks_agree;
pub use one_width::one_width_agree;
pub use permutations::permutations_agree;
pub use reductions::reductions_agree;
pub use two_widths::two_widths_agree;
pub use vector_types::vector_types_agree;
