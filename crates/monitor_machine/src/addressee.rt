//! The addressee of a script's line.
ghost use Rattle.std.specs.Prelude.{◌≡◌, length, drop};
ghost use Rattle.rv_model.specs.machine.Script.{kind_of};
ghost use Rattle.monitor_machine.specs.Addressees.{kind_as, HasPrefix};

use rv_model::User;

/// Maximum length of a line in bytes, without its newline.
pub const MAX_LINE: usize = 1024;

/// The addressee of a line, by its length and its first two bytes: a user's digit or a star, and a
/// space.
#[derive(Clone, Copy)]
pub(crate) enum Addressee {
    /// An empty line, which is skipped.
    Nobody,
    /// A line of more than 1,024 bytes.
    TooLong,
    /// A line without a valid prefix.
    BadPrefix,
    Operator,
    User(User),
}

/// Return the addressee of a line. The text after the prefix begins at the third byte.
#[tactic(auto, using(crate::proofs::PrefixLaws::prefixed_at), unfolding(rv_model::specs::machine::Script::kind_of))]
pub(crate) fn addressee_of(line: &[u8]) -> Addressee
    ensures kind { kind_of line.now ≡ kind_as result (drop 2 line.now) }
    ensures prefix { HasPrefix result (length line.now) }
{
    if line.len() > MAX_LINE {
        return Addressee::TooLong;
    }
    if line.is_empty() {
        return Addressee::Nobody;
    }
    if line.len() == 1 || line[1] != b' ' {
        return Addressee::BadPrefix;
    }
    let first = line[0];
    if first == b'*' {
        return Addressee::Operator;
    }
    if first < b'1' {
        return Addressee::BadPrefix;
    }
    match User::new(first - b'0') {
        Some(user) => Addressee::User(user),
        None => Addressee::BadPrefix,
    }
}
