//! The rest of a line after its first tokens, with the spaces inside it.
ghost use Rattle.std.specs.Prelude.{◌≡◌};
ghost use Rattle.rv_model.specs.text.Words.{trim_start, trim_end, after_word, after_two_words};

/// Return a line without the spaces at its start.
#[tactic(auto, unfolding(rv_model::specs::text::Words::trim_start))]
fn trim_start(mut line: &[u8]) -> &[u8]
    ensures { result.now ≡ trim_start line.entry.now }
{
    while let [b' ', rest @ ..] = line {
        line = rest;
    }
    line
}

/// Return a line without the spaces at its end.
#[tactic(auto, unfolding(rv_model::specs::text::Words::trim_end))]
fn trim_end(mut line: &[u8]) -> &[u8]
    ensures { result.now ≡ trim_end line.entry.now }
{
    while let [rest @ .., b' '] = line {
        line = rest;
    }
    line
}

/// Return the text after the first space-separated token of a line.
#[tactic(auto, unfolding(rv_model::specs::text::Words::after_word))]
fn after_word(line: &[u8]) -> &[u8]
    ensures { result.now ≡ after_word line.now }
{
    let mut rest = trim_start(line);
    while let [byte, after @ ..] = rest
        && *byte != b' '
    {
        rest = after;
    }
    rest
}

/// Return the text after the first two tokens of a line, without spaces (byte 0x20) at its start and end.
#[tactic(auto, unfolding(rv_model::specs::text::Words::after_two_words))]
pub(crate) fn after_two_words(line: &[u8]) -> &[u8]
    ensures { result.now ≡ after_two_words line.now }
{
    trim_end(trim_start(after_word(after_word(line))))
}
