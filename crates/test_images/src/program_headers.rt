//! Prints the fault of an invalid image, or the memory that an image needs: the entry in hexadecimal, and the number of
//! pages that a user needs for it and the stack. For each loadable segment, it prints the offset, the address, the sizes
//! in the file and in memory, and the flags, as `readelf -l` of GNU binutils does.
use elf_load::check;
use rv_model::ProgramHeader;
use std::io;

/// The type of a loadable segment (PT_LOAD).
const LOAD: u32 = 1;

/// The text of each value of a segment's flags.
const USES: [&str; 8] = ["  ", "  E", " W", " WE", "R ", "R E", "RW", "RWE"];

/// Prints the fault of an image, or its entry, its number of pages and its loadable segments.
pub(crate) fn print_image(rt: &impl Print, image: &[u8]) -> io::Result<()> {
    let plan = match check(image) {
        Ok(plan) => plan,
        Err(fault) => return println!(rt; "fault {}", fault.name()),
    };
    println!(rt; "entry {:x}", plan.entry())?;
    match plan.pages() {
        Some(pages) => println!(rt; "pages {pages}")?,
        None => println!(rt; "pages above the quota")?,
    }
    for number in 0..plan.header_count() {
        let header = plan.program_header(number);
        if header.kind == LOAD {
            print_segment(rt, header)?;
        }
    }
    Ok(())
}

/// Prints a loadable segment.
fn print_segment(rt: &impl Print, header: ProgramHeader) -> io::Result<()> {
    print!(rt; "LOAD")?;
    for number in [
        header.offset,
        header.address,
        header.file_size,
        header.memory_size,
    ] {
        print!(rt; " {number:x}")?;
    }
    println!(rt; " {}", USES[(header.flags % 8) as usize])
}
