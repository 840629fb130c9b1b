//! Reads the operands of a form from a text, and prints them.
ghost use Rattle.std.specs.Prelude.{◌≡◌, ◌≤◌, ◌<◌, ◌^◌, ◌+◌, ◌*◌, ◌++◌, length};
ghost use Rattle.arrayvec.specs.ArrayString.{array_string_len};
ghost use Rattle.rv_model.specs.assembler.Table.{read_operands, printed_operands};
ghost use Rattle.rv_asm.specs.Places.{rest, Answers};
ghost use Rattle.rv_asm.specs.Spans.{spans};

use crate::fault::AsmFault;
use crate::field::{placed, value_of};
use crate::print::{Text, put_slot};
use crate::read::read_slot;
use crate::token::next_token;
use rv_model::assembler::forms::Slot;

/// The word with these fixed bits and the operands from index `start` to the end of the text.
pub(crate) fn read_operands(
    bits: u32,
    slots: &[Slot],
    text: &[u8],
    start: usize,
) -> Result<u32, AsmFault>
    requires inside { start ≤ length text.now }
    requires fits { bits + spans slots.now < 2 ^ 32 }
    ensures { Answers result
        (read_operands (length text.now + 1) bits slots.now (rest text.now start)) }
{
    let mut word = bits;
    let mut at = start;
    for slot in slots {
        let (value, after) = read_slot(slot, text, at)?;
        word += placed(slot, value);
        at = after;
    }
    match next_token(text, at) {
        Some((token, _)) => Err(token.fault()),
        None => Ok(word),
    }
}

/// Appends the text of a word's operands.
pub(crate) fn put_operands(slots: &[Slot], word: u32, out: &mut Text)
    requires { array_string_len out.old + 16 * length slots.now ≤ 160 }
    ensures bytes { out.new.bytes ≡ out.old.bytes ++ printed_operands slots.now word }
{
    for slot in slots {
        put_slot(slot, value_of(slot, word), out);
    }
}
