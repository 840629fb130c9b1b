//! Assembles a text into a word, and prints the canonical text of a word.
ghost use Rattle.std.specs.Prelude.{◌≡◌, ◌≤◌, ◌+◌, ◌*◌, ◌++◌, length, Ok, Err, IfOk, IfErr};
ghost use Rattle.arrayvec.specs.ArrayString.{array_string_len};
ghost use Rattle.rv_model.specs.assembler.Table.{spelled, spelling, canonical, operands_text};
ghost use Rattle.rv_model.specs.lending.NameTable.{fixed_mask, slots_of};

use crate::fault::AsmFault;
use crate::operands::{put_operands, read_operands};
use crate::print::{Text, put_name};
use crate::table::{fixed_mask, row_at, row_named, row_of_word, slots_of};
use crate::token::take;
use rv_model::assembler::forms::{Form, Slot};
use rv_model::assembler::mnemonics::Mnemonic;

/// Return the 32-bit word that a text encodes: a mnemonic and its operands, or `.word` and a number.
/// The error is the column of the first token that doesn't fit.
pub fn assemble(text: &[u8]) -> Result<u32, AsmFault>
    ensures ok { IfOk result (λ word. spelled text.now ≡ Ok word) }
    ensures err { IfErr result (λ fault. spelled text.now ≡ Err fault.column) }
{
    let (name, after) = take(text, 0)?;
    let Some(row) = row_named(name.text) else {
        return Err(name.fault());
    };
    let Mnemonic(_, form, bits) = row_at(row);
    read_operands(bits, slots_of(form), text, after)
}

/// Appends a space and the operands of a word, or nothing if the form has no slots.
fn put_operands_text(slots: &[Slot], word: u32, text: &mut Text)
    requires { array_string_len text.old + 1 + 16 * length slots.now ≤ 160 }
    ensures { text.new.bytes ≡ text.old.bytes ++ operands_text slots.now word }
{
    if !slots.is_empty() {
        text.push(' ');
        put_operands(slots, word, text);
    }
}

/// Replace the text with the canonical text of a word.
pub fn text_of(word: u32, text: &mut Text)
    ensures text { text.new.bytes ≡ canonical word }
    // Assembling the canonical text returns the word.
    ensures again { spelled text.new.bytes ≡ Ok word }
{
    text.clear();
    let Mnemonic(name, form, _) = row_at(row_of_word(word));
    put_name(&name, text);
    put_operands_text(slots_of(form), word, text);
}

/// The form of a word's canonical text.
fn form_of(word: u32) -> Form
    ensures { slots_of result ≡ (spelling word).slots }
{
    let Mnemonic(_, form, _) = row_at(row_of_word(word));
    form
}

/// Return the slots that follow the mnemonic in the canonical text of a word.
pub fn slots_of_word(word: u32) -> &'static [Slot]
    ensures { result.now ≡ (spelling word).slots }
{
    slots_of(form_of(word))
}

/// Return the mask of the bits that a word's mnemonic fixes: ones where its text has no operand.
pub fn name_mask(word: u32) -> u32
    ensures { result ≡ fixed_mask (spelling word).slots }
{
    fixed_mask(form_of(word))
}
