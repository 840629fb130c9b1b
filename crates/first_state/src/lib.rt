//! Initial state of a recorded run: an image, bytes that are placed in memory, and registers.
#![tactic(auto)]

mod fault;
mod laying;
mod lines;
mod own_bytes;
mod placing;
mod registers;
mod setting;
mod start;

pub use fault::{LoadFault, PlaceFault, RegistersFault};
pub use own_bytes::OwnBytes;
pub use placing::place_bytes;
pub use registers::set_registers;
pub use start::{enter, load};
