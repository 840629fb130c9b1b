//! Laws of the instruction table, of decoding and of encoding.
ghost use Rattle.std.specs.Prelude.{◌≡◌, ℕ, Contains, IfSome, IfNone, Some};
ghost use Rattle.rv_model.specs.instructions.Table.{Row, IsRow, Matches, table};

use crate::decoder::decode;
use crate::encoder::encode;
use rv_model::Instr;

/// No word matches two rows of the table.
pub fn one_row()
    ensures { (r s : Row) → Contains table r → Contains table s → (word : ℕ) → Matches r word → Matches s word → r ≡ s }
{}

/// Decode a word and encode the instruction. Return the same word, or `None` if the word is no instruction.
pub fn encoded_again(word: u32) -> Option<u32>
    ensures same { IfSome result (λ again. again ≡ word) }
    ensures found { IfSome result (λ again. (r : Row) × IsRow word r) }
    ensures none { IfNone result ((r : Row) → IsRow word r → ⊥) }
{
    match decode(word) {
        Some(instr) => Some(encode(&instr)),
        None => None,
    }
}

/// Encode an instruction and decode the resulting word. Return the same instruction.
pub fn decoded_again(instr: &Instr) -> Option<Instr>
    ensures { result ≡ Some instr.now }
{
    decode(encode(instr))
}
