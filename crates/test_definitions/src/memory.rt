//! Cases of scalar and vector loads and stores. tools/golden/golden_theorems writes this file from lab/tests/data/golden_vectors.
mod faults;
mod loads;
mod scalar_accesses;
mod stores;

pub use faults::faults_agree;
pub use loads::loads_agree;
pub use scalar_accesses::scalar_accesses_agree;
pub use stores::stores_agree;
