//! Compares kernels with values worked by hand (`by_hand.rt`), and with plain loops over their elements. The loops use
//! the manual's formulas in whole numbers (the other files; `comparison.rt` has the cases). It prints a line for each
//! kernel, with the number of results compared and the number of results that differ.
//!
//! Then it prints digests of the fixed-point operations at their smallest widths; the expected digests come from QEMU
//! (`digests.rt`).
#![tactic(auto)]

mod by_hand;
mod comparison;
mod digests;
mod fixed_point;
mod folds;
mod mask_results;
mod numbers;
mod one_width;
mod operands;
mod permutations;
mod report;
mod two_widths;
mod variants;

use crate::report::Report;
use std::io;

fn main(rt: HostRuntime) -> io::Result<()> {
    let mut report = Report::new();
    by_hand::compare(&mut report);
    one_width::compare(&mut report);
    two_widths::compare(&mut report);
    fixed_point::compare(&mut report);
    mask_results::compare(&mut report);
    folds::compare(&mut report);
    permutations::compare(&mut report);
    report.print(&rt)?;
    digests::print_digests(&rt)
}
