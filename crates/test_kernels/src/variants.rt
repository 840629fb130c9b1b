//! Inputs of operations other than their elements; a sweep tries one after the other.
use crate::operands::{ALL, BITS, MIXED, NO_MASK};

/// Inputs of an operation other than its elements: an offset, index, scalar or rounding mode (`amount`), and up to two
/// masks.
#[derive(Clone, Copy)]
pub(crate) struct Variant {
    pub(crate) amount: u64,
    pub(crate) bits: [u8; 32],
    pub(crate) other: [u8; 32],
}

/// Kinds of variants that a sweep tries.
#[derive(Clone, Copy)]
pub(crate) enum Variants {
    /// One variant, which the operation doesn't use.
    Plain,
    /// A scalar; an element takes its low bits.
    Scalar,
    /// The rounding modes, by their numbers in vxrm.
    Modes,
    /// The offsets of slides, and the indices of gathers by one index.
    Amounts,
    /// Masks in v0 or vs1: all bits set, none, and some.
    Operands,
    /// The same for carries and borrows; the last variant (amount 1) has no carry or borrow in.
    Carries,
    /// Masks that are scanned, counted or combined with another: some bits set, none, one, and all except the first 8.
    Scanned,
}

impl Variants {
    /// The number of variants.
    pub(crate) fn count(self) -> usize {
        match self {
            Variants::Plain | Variants::Scalar => 1,
            Variants::Operands => 3,
            Variants::Modes | Variants::Carries | Variants::Scanned => 4,
            Variants::Amounts => 7,
        }
    }

    /// The variant with a number from 0 on.
    pub(crate) fn variant(self, number: usize) -> Variant {
        let (amount, bits) = match self {
            Variants::Plain => (0, NO_MASK),
            Variants::Scalar => (0x8182_8384_8586_8788, NO_MASK),
            Variants::Modes => (number as u64, NO_MASK),
            Variants::Amounts => (amount(number), NO_MASK),
            Variants::Operands => (0, operand(number)),
            Variants::Carries => (u64::from(number == 3), operand(number)),
            Variants::Scanned => (0, scanned(number)),
        };
        Variant {
            amount,
            bits,
            other: MIXED,
        }
    }
}

/// The offset or index of a variant: 0, small numbers, numbers up to the 65 elements of a source, and the greatest.
fn amount(number: usize) -> u64 {
    match number {
        0 => 0,
        1 => 1,
        2 => 7,
        3 => 33,
        4 => 64,
        5 => 65,
        _ => u64::MAX,
    }
}

/// The mask of a variant: all bits set, none, or some.
fn operand(number: usize) -> [u8; 32] {
    match number {
        0 => ALL,
        1 => NO_MASK,
        _ => MIXED,
    }
}

/// The mask that a variant scans: some bits set, none, one, or all except the first 8.
fn scanned(number: usize) -> [u8; 32] {
    let mut bits = if number == 3 { ALL } else { NO_MASK };
    match number {
        0 => bits = BITS,
        2 => bits[5] = 4,
        3 => bits[0] = 0,
        _ => {}
    }
    bits
}
