//! Executes vector instructions of each family from every vstart, with each requested vtype from 0 to 255, and with the
//! lengths 13 and VLMAX. The bits of all registers are set, and those of v0 are all set or all clear. No memory may be
//! loaded or stored. A load or store executes at most seven indices. A step of the hart fetches and executes the word;
//! the vector unit alone also executes one instruction of each family.
//!
//! For each instruction, a line has the number of runs with each end, and the number of wrong runs. A run is wrong if
//! its end differs from the rules of legality and of accesses, which this program implements independently. A run is
//! also wrong if an illegal instruction changes the state.
#![tactic(auto)]

mod accesses;
mod arithmetic;
mod ends;
mod lending;
mod rules;
mod running;
mod shapes;
mod ways;

use accesses::{contiguous, of_registers, scattered};
use arithmetic::{
    mask_results, of_one_width, of_two_widths, on_masks, permutations, products_and_moves,
};
use lending::UserMemory;
use running::counts_of;
use shapes::Shape;
use std::io;
use ways::Way;

/// Executes the instruction of a text in each setting, and prints its line.
fn compare_text(
    rt: &impl Print,
    text: &str,
    shape: &Shape,
    way: Way,
    memory: &mut UserMemory,
) -> io::Result<()> {
    let Some(counts) = counts_of(text, shape, way, memory) else {
        return Err(io::Error::other(text));
    };
    let by = match way {
        Way::Step => "",
        Way::Exec => " by the unit",
    };
    println!(rt;
        "{text}{by}: {} done, {} illegal, {} faults, {} cuts, {} wrong",
        counts.done, counts.illegal, counts.faults, counts.cuts, counts.wrong
    )
}

/// Executes the instructions of a family, and one of them also by the vector unit alone.
fn compare_family(rt: &impl Print, shapes: &[Shape], memory: &mut UserMemory) -> io::Result<()> {
    for shape in shapes.iter() {
        for text in shape.texts.iter() {
            compare_text(rt, text, shape, Way::Step, memory)?;
        }
    }
    let Some(shape) = shapes.first() else {
        return Ok(());
    };
    let Some(text) = shape.texts.last() else {
        return Ok(());
    };
    compare_text(rt, text, shape, Way::Exec, memory)
}

fn main(rt: HostRuntime) -> io::Result<()> {
    let Some(mut memory) = UserMemory::new(rt.alloc()) else {
        return Err(io::Error::other("memory is refused"));
    };
    compare_family(&rt, &of_one_width(), &mut memory)?;
    compare_family(&rt, &products_and_moves(), &mut memory)?;
    compare_family(&rt, &of_two_widths(), &mut memory)?;
    compare_family(&rt, &mask_results(), &mut memory)?;
    compare_family(&rt, &on_masks(), &mut memory)?;
    compare_family(&rt, &permutations(), &mut memory)?;
    compare_family(&rt, &contiguous(), &mut memory)?;
    compare_family(&rt, &of_registers(), &mut memory)?;
    compare_family(&rt, &scattered(), &mut memory)
}
