//! Vector loads and stores on one user's bytes.
//!
//! Read `instructions` first, then the definitions of the moved segments (`transfers`, `indexed`, `moves`,
//! `segments`), and the index-by-index path (`loads`, `stores`, `field_bytes`). `blocks`, `spans` and
//! `blends` are faster paths for common cases. Each has the same result as the index-by-index path.
#![tactic(auto)]

mod addresses;
mod blends;
mod blocks;
mod ends;
mod field_bytes;
mod indexed;
mod instructions;
mod length;
mod lent;
mod lent_loads;
mod lent_stores;
mod loads;
mod moves;
mod runs;
mod segments;
mod shown;
mod spans;
mod stores;
mod transfers;
mod user_bytes;

pub use instructions::{run, show_moves};
pub use length::{element_bytes, index_count, whole_length};
pub use rv_model::MemEnd;
pub use shown::{Viewer, unit_direction};
pub use user_bytes::UserBytes;
