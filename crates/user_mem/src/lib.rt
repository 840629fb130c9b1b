//! The memory of all users, in one pool of frames. A user's memory is a map from addresses to bytes with permissions;
//! calls for other users leave it unchanged.
#![tactic(auto)]

mod access;
mod entry;
mod frames;
mod free;
mod isolation;
mod pool;
mod table;
mod translations;
mod users;

pub use isolation::isolation_law;
pub use pool::{NoMemory, Pool};
pub use rv_model::{Access, Fault, MapRefusal};
