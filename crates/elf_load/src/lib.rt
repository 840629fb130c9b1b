//! ELF-64 images: validation, the pages that an image needs, and loading it into a user's memory.
#![tactic(auto)]

mod faults;
mod fields;
mod laws;
mod pages;
mod permissions;
mod placing;
mod plan;

pub use laws::image_laws;
pub use plan::{Plan, check, place};
pub use rv_model::ElfFault;
