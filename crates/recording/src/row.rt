//! Counts for one key.
ghost use Rattle.std.specs.Prelude.{◌≡◌, ℕ};
ghost use Rattle.rv_model.specs.instructions.Table.{scan, table};
ghost use Rattle.recording.specs.Classes.{class_of};
ghost use Rattle.recording.specs.declared.key.Key.TheVariants.{Word};

use crate::class::Class;
use crate::key::Key;
use crate::sums::Sums;

/// The counts for a key. The row of a word has the class of the word's instruction.
#[derive(Clone, Copy)]
pub struct Row {
    pub key: Key,
    pub class: Class,
    pub sums: Sums,
    ghost class_is: { (pc word : ℕ) → key ≡ Word pc word → class ≡ class_of (scan table word) },
}
