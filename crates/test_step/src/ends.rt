//! Expected ends of instructions, if no memory may be loaded or stored and the bits of all registers are set.
use crate::shapes::{Access, Shape};
use rv_model::VEnd;

/// State before an instruction.
#[derive(Clone, Copy, Drop)]
pub(crate) struct Found {
    pub vl: u64,
    pub vstart: u8,
    /// Whether all elements are active; otherwise, none is.
    pub is_active: bool,
    /// Maximum number of indices that it executes.
    pub limit: u64,
}

/// The end of an instruction, the vstart after it, and the ticks that it takes.
#[derive(Clone, Copy, Drop)]
pub(crate) struct Ending {
    pub end: VEnd,
    pub vstart: u64,
    pub ticks: u64,
}

/// The end of an instruction that completes after this number of ticks.
fn done_after(ticks: u64) -> Ending {
    Ending {
        end: VEnd::Done,
        vstart: 0,
        ticks,
    }
}

/// The number of indices of an access.
fn length(access: Access, vl: u64) -> u64 {
    match access {
        Access::Whole(count, _) => count,
        Access::Mask => vl.div_ceil(8),
        _ => vl,
    }
}

/// The address of an index. The base and the stride are all ones, and each offset is all ones in its width.
fn address(access: Access, index: u64) -> u64 {
    let distance = match access {
        Access::Unit(bytes) | Access::FaultOnlyFirst(bytes) | Access::Whole(_, bytes) => {
            index.wrapping_mul(bytes)
        }
        Access::Strided => index.wrapping_neg(),
        Access::Indexed(8) => 0xff,
        Access::Indexed(16) => 0xffff,
        Access::Indexed(32) => 0xffff_ffff,
        Access::Indexed(_) => u64::MAX,
        Access::Mask => index,
    };
    u64::MAX.wrapping_add(distance)
}

/// The end of a legal load or store.
fn access_ending(access: Access, store: bool, found: Found) -> Ending {
    let index = u64::from(found.vstart);
    let length = length(access, found.vl);
    let last = index.wrapping_add(found.limit);
    if index >= length {
        return done_after(1);
    }
    if found.is_active {
        return match access {
            Access::FaultOnlyFirst(_) if index > 0 => done_after(1),
            _ => Ending {
                end: VEnd::Fault {
                    store,
                    addr: address(access, index),
                },
                vstart: index,
                ticks: 1,
            },
        };
    }
    if last < length {
        return Ending {
            end: VEnd::Cut {
                index: last as usize,
            },
            vstart: last,
            ticks: found.limit,
        };
    }
    done_after(length.wrapping_sub(index))
}

/// The end of an instruction, legal or not.
pub(crate) fn ending_of(shape: &Shape, legal: bool, found: Found) -> Ending {
    if !legal {
        return Ending {
            end: VEnd::Illegal,
            vstart: u64::from(found.vstart),
            ticks: 1,
        };
    }
    match shape.access {
        Some(access) => access_ending(access, shape.destination.is_none(), found),
        None => done_after(1),
    }
}
