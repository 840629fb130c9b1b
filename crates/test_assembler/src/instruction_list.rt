//! Prints the list of instructions by families: each name with the text of its operands and its encoding. The file
//! `titles` has the text above the list and the titles of the families. In each line, the first name of the family and a
//! `|` precede the title.
use rv_asm::{name_mask, slots_of_word};
use rv_model::assembler::forms::{Place, SignedField, Slot, UnsignedField};
use rv_model::assembler::mnemonics::{MNEMONICS, Mnemonic};
use std::io;

/// The manual's notation for a slot.
fn operand(slot: &Slot) -> &'static str {
    match slot {
        Slot::Comma => ", ",
        Slot::Open => "(",
        Slot::Close => ")",
        Slot::V0 => "v0",
        Slot::Scalar(Place::Rd) => "rd",
        Slot::Scalar(Place::Rs1) => "rs1",
        Slot::Scalar(Place::Rs2) => "rs2",
        Slot::Vector(Place::Rd) => "vd",
        Slot::Vector(Place::Rs1) => "vs1",
        Slot::Vector(Place::Rs2) => "vs2",
        Slot::Unsigned(UnsignedField::Immediate) => "uimm",
        Slot::Unsigned(UnsignedField::Shift | UnsignedField::ShiftWord) => "shamt",
        Slot::Unsigned(UnsignedField::Upper) => "imm",
        Slot::Signed(SignedField::Branch | SignedField::Jump) => "offset",
        Slot::Signed(_) => "imm",
        Slot::Csr => "csr",
        Slot::VectorType | Slot::ShortVectorType => "vtypei",
        Slot::Mask => "[, v0.t]",
        Slot::Word => "number",
    }
}

/// Prints the 32 bits of an encoding, bit 31 first: a fixed bit, or `-` for an operand's. A space separates the fields of
/// the R format.
fn print_encoding(rt: &impl Print, mask: u32, bits: u32) -> io::Result<()> {
    let mut mask = mask;
    let mut bits = bits;
    for place in 0..32 {
        let bit = if mask < 1 << 31 {
            '-'
        } else if bits < 1 << 31 {
            '0'
        } else {
            '1'
        };
        match place {
            6 | 11 | 16 | 19 | 24 => print!(rt; "{bit} ")?,
            _ => print!(rt; "{bit}")?,
        }
        mask = mask.wrapping_mul(2);
        bits = bits.wrapping_mul(2);
    }
    Ok(())
}

/// Prints a row of the list.
fn print_row(rt: &impl Print, row: &Mnemonic) -> io::Result<()> {
    let Mnemonic(name, _, bits) = *row;
    print!(rt; "| `")?;
    for byte in name.trim_ascii_end() {
        print!(rt; "{}", char::from(*byte))?;
    }
    let mut gap = " ";
    for slot in slots_of_word(bits) {
        print!(rt; "{gap}{}", operand(slot))?;
        gap = "";
    }
    print!(rt; "` | `")?;
    print_encoding(rt, name_mask(bits), bits)?;
    println!(rt; "` |")
}

/// Prints the titles that the file has for a name.
fn print_titles(rt: &impl Print, titles: &str, name: &[u8]) -> io::Result<()> {
    for line in titles.lines() {
        if let Some((first, title)) = line.split_once('|')
            && first.as_bytes() == name
        {
            println!(rt; "{title}")?;
        }
    }
    Ok(())
}

/// Prints the list, with the titles from the file.
pub(crate) fn print_list(rt: &impl Print, titles: &str) -> io::Result<()> {
    print_titles(rt, titles, b"")?;
    for row in &MNEMONICS {
        print_titles(rt, titles, row.0.trim_ascii_end())?;
        print_row(rt, row)?;
    }
    Ok(())
}
