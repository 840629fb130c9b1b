//! Bit fields of an instruction's word.
ghost use Rattle.std.specs.Prelude.{◌≡◌, ◌<◌, ◌^◌};
ghost use Rattle.rv_model.specs.instructions.FixedBits.{field};

/// Return the `len` bits of a word from bit `low` up, as an unsigned number.
pub fn bits(word: u32, low: u32, len: u32) -> u32
    requires { low < 32 × len < 32 }
    ensures value { result ≡ field low len word }
    ensures small { result < 2 ^ len }
{
    (word >> low) % (1 << len)
}
