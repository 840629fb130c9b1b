//! Prints digests of the fixed-point operations at their smallest widths, in each rounding mode. Operands are all pairs
//! of bytes, and for clips all 16-bit numbers with all shift amounts. A line has the operation, the rounding mode, the
//! 32-bit FNV-1a digest of the results with their saturation flags, and the number of pairs that saturate.
//!
//! The expected lines come from QEMU 7.2, which executed the instructions on one pair at a time, with `vl` 1 and with
//! `vxsat` cleared before each.
use lane_fixed::{Clip, FixedPoint, Saturated, SaturatingResults};
use rv_model::RoundingMode;
use rv_model::instructions::operations::{ClipOp, FixedPointOp};
use std::io;
use std::marker::PhantomData;

const MODES: [(RoundingMode, &str); 4] = [
    (RoundingMode::NearestUp, "rnu"),
    (RoundingMode::NearestEven, "rne"),
    (RoundingMode::Down, "rdn"),
    (RoundingMode::Odd, "rod"),
];

/// An operation on all pairs of bytes, or a clip of all numbers of 16 bits.
#[derive(Clone, Copy)]
enum Operation {
    Pairs(FixedPointOp),
    Clips(ClipOp),
}

const OPERATIONS: [(Operation, &str); 13] = [
    (Operation::Pairs(FixedPointOp::Vsaddu), "vsaddu"),
    (Operation::Pairs(FixedPointOp::Vsadd), "vsadd"),
    (Operation::Pairs(FixedPointOp::Vssubu), "vssubu"),
    (Operation::Pairs(FixedPointOp::Vssub), "vssub"),
    (Operation::Pairs(FixedPointOp::Vsmul), "vsmul"),
    (Operation::Pairs(FixedPointOp::Vssrl), "vssrl"),
    (Operation::Pairs(FixedPointOp::Vssra), "vssra"),
    (Operation::Pairs(FixedPointOp::Vaaddu), "vaaddu"),
    (Operation::Pairs(FixedPointOp::Vaadd), "vaadd"),
    (Operation::Pairs(FixedPointOp::Vasubu), "vasubu"),
    (Operation::Pairs(FixedPointOp::Vasub), "vasub"),
    (Operation::Clips(ClipOp::Vnclipu), "vnclipu"),
    (Operation::Clips(ClipOp::Vnclip), "vnclip"),
];

/// A 32-bit FNV-1a digest of results, and the number of results that saturate.
#[derive(Clone, Copy)]
struct Digest {
    hash: u32,
    saturated: u32,
}

/// Adds a result.
fn add(digest: &mut Digest, byte: Saturated<u8>) {
    let saturated = u32::from(byte.saturated);
    digest.hash = (digest.hash ^ u32::from(byte.value)).wrapping_mul(0x0100_0193);
    digest.hash = (digest.hash ^ saturated).wrapping_mul(0x0100_0193);
    digest.saturated = digest.saturated.wrapping_add(saturated);
}

/// Adds the results of an operation on one byte and each byte.
fn add_pairs(op: FixedPointOp, mode: RoundingMode, a: u8, digest: &mut Digest) {
    for b in 0..=u8::MAX {
        let (a, b) = (&[a], &[b]);
        let operation = FixedPoint { op, mode, a, b };
        add(digest, operation.result(0));
    }
}

/// Adds the results of a clip of one number, shifted by each amount.
fn add_clips(op: ClipOp, mode: RoundingMode, a: u16, digest: &mut Digest) {
    for b in 0..16 {
        let clip = Clip::<'_, u16> {
            op,
            mode,
            a: &a.to_le_bytes(),
            b: &[b],
            element: PhantomData,
        };
        add(digest, clip.result(0));
    }
}

/// The digest of an operation in a rounding mode.
fn digest_of(operation: Operation, mode: RoundingMode) -> Digest {
    let mut digest = Digest {
        hash: 0x811c_9dc5,
        saturated: 0,
    };
    match operation {
        Operation::Pairs(op) => {
            for a in 0..=u8::MAX {
                add_pairs(op, mode, a, &mut digest);
            }
        }
        Operation::Clips(op) => {
            for a in 0..=u16::MAX {
                add_clips(op, mode, a, &mut digest);
            }
        }
    }
    digest
}

/// Prints the line of an operation in a rounding mode.
fn print_line(rt: &impl Print, name: &str, mode: &str, digest: Digest) -> io::Result<()> {
    println!(rt; "{name} {mode} {:08x} {}", digest.hash, digest.saturated)
}

/// Prints the lines of an operation.
fn print_operation(rt: &impl Print, operation: Operation, name: &str) -> io::Result<()> {
    for (mode, mode_name) in MODES {
        print_line(rt, name, mode_name, digest_of(operation, mode))?;
    }
    Ok(())
}

/// Prints all lines.
pub(crate) fn print_digests(rt: &impl Print) -> io::Result<()> {
    for (operation, name) in OPERATIONS {
        print_operation(rt, operation, name)?;
    }
    Ok(())
}
