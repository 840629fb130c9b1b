//! The vector state of a machine ("V" Vector Extension 1.0, section 3).
mod cells;
mod control_register;
mod file;
mod policy;
mod register_bytes;
mod request;
mod sizes;
mod state;
mod types;

pub use control_register::ControlRegister;
pub use file::VFile;
pub use policy::Policy;
pub use register_bytes::RegisterBytes;
pub use request::{RequestedLength, VectorRequest};
pub use sizes::{FILE_BYTES, GROUP_BYTES, VECTOR_REGISTERS, VLENB};
pub use state::{RoundingMode, Seat, VConf, VState};
pub use types::{Lmul, Sew, VType};
