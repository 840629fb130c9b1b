//! Cases of scalar instructions. tools/golden/golden_theorems writes this file from lab/tests/data/golden_vectors.
mod branches;
mod control_registers;
mod scalars;

pub use branches::branches_agree;
pub use control_registers::control_registers_agree;
pub use scalars::scalars_agree;
