//! Parsing of numbers in a radix.
ghost use Rattle.std.specs.Prelude.{◌≡◌, ◌≤◌, ◌^◌};
ghost use Rattle.rv_model.specs.text.Digits.{digit, digits_after};
ghost use Rattle.rv_model.specs.lending.Text.{capped};

/// Return the value of a hexadecimal digit of either case, or 16 for any other byte.
fn digit(byte: u8) -> u128
    ensures { result ≡ digit byte }
{
    match byte {
        b'0'..=b'9' => u128::from(byte - b'0'),
        b'a'..=b'f' => u128::from(byte - b'a') + 10,
        b'A'..=b'F' => u128::from(byte - b'A') + 10,
        _ => 16,
    }
}

/// Return the value of the digits in a radix, or `cap` if the value is greater. An empty text gives 0; a byte that
/// isn't a digit of the radix gives `None`.
pub fn digits(radix: u128, cap: u128, word: &[u8]) -> Option<u128>
    requires radix { 1 ≤ radix × radix ≤ 16 }
    requires cap { cap ≤ 2 ^ 64 }
    ensures { result ≡ capped cap (digits_after radix 0 word.now) }
{
    let mut value = 0;
    for byte in word {
        let next = digit(*byte);
        if next >= radix {
            return None;
        }
        value = (value * radix + next).min(cap);
    }
    Some(value)
}
