//! Sums over rows.
ghost use Rattle.std.specs.Prelude.{◌≡◌, ◌%◌, ◌^◌};
ghost use Rattle.recording.specs.Sums.{OfEach, is_word, part_of, total};

use crate::key::Key;
use crate::row::Row;
use crate::sums::Sums;

/// Return whether a key is that of a word.
fn is_word(key: Key) -> bool
    ensures { result ≡ is_word key }
{
    matches!(key, Key::Word { pc: _, word: _ })
}

/// Return the sums of a word's row, or zeros for any other row.
fn word_sums(row: &Row) -> Sums
    ensures { OfEach (λ number. number result ≡ part_of number is_word row.now) }
{
    if is_word(row.key) {
        row.sums
    } else {
        Sums::none()
    }
}

/// Return the sums over the rows of words, modulo 2^64. They include each counted instruction once.
pub fn totals(rows: &[Row]) -> Sums
    ensures { OfEach (λ number. number result ≡ total number is_word rows.now % 2 ^ 64) }
{
    let mut sums = Sums::none();
    for row in rows {
        sums = sums.added(word_sums(row));
    }
    sums
}
