//! Faults that prevent a run from starting.
use rv_model::ElfFault;
use std::fmt;
use thiserror::Error;

/// Reason why an image isn't loaded.
#[derive(Debug, Drop)]
pub enum LoadFault {
    /// The image has this fault.
    Elf(ElfFault),
    /// The image takes more than `PAGE_QUOTA` pages.
    Quota,
}

impl fmt::Display for LoadFault {
    fn fmt<W: fmt::Write>(&self, f: &mut fmt::Formatter<W>) -> fmt::Result {
        match self {
            LoadFault::Elf(fault) => {
                f.write_str("bad image: ")?;
                f.write_str(fault.name())
            }
            LoadFault::Quota => f.write_str("image takes too many pages"),
        }
    }
}

/// Reason why bytes aren't placed in memory.
#[derive(Debug, Drop, Error)]
pub enum PlaceFault {
    /// The bytes end past `ADDRESS_END`.
    #[error("bytes end past address 2^48")]
    Range,
    /// With the pages of the bytes, more than `PAGE_QUOTA` pages would be mapped.
    #[error("bytes take too many pages")]
    Quota,
}

/// Reason why a text doesn't set the registers.
#[derive(Debug, Drop, Error)]
pub enum RegistersFault {
    /// The line with this number, counted from 1, isn't a register name and a value that the register can hold.
    #[error("line {0}: no register and a value that it can have")]
    Line(usize),
    /// The vector length isn't valid for the vector type.
    #[error("vl is no length of vtype")]
    Length,
}
