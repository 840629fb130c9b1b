//! Groups of vector registers: which instructions may use which groups, and the bytes of a group.
#![tactic(auto)]

mod agreement;
mod arithmetic;
mod copies;
mod groups;
mod legality;
mod operands;
mod positions;

pub use arithmetic::legal_arith;
pub use copies::{group_copy, group_copy_mut, mask_register, put_group, register_copy};
pub use groups::{group, group_mut, registers};
pub use legality::{legal, legal_access, legal_other_operation};
pub use operands::{emul, extension_divisor, register_count};
