//! The low part of a 64-bit word, and sign extension to 64 bits.
ghost use Rattle.std.specs.Prelude.{◌≡◌, ◌≤◌, ◌<◌, ◌%◌, ◌^◌};
ghost use Rattle.rv_model.specs.instructions.Immediates.{sign_extended};

/// Sign-extend a two's complement number of `bits` bits, 1 to 63, to 64 bits.
pub fn sign_extend(bits: u32, value: u64) -> u64
    requires low { 1 ≤ bits }
    requires high { bits ≤ 63 }
    requires fits { value < 2 ^ bits }
    ensures { result ≡ sign_extended bits value }
{
    let unused = 64 - bits;
    ((value << unused).cast_signed() >> unused).cast_unsigned()
}

/// Return the low 32 bits.
pub(crate) fn low_word(value: u64) -> u32
    ensures { result ≡ value % 2 ^ 32 }
{
    (value % (1 << 32)) as u32
}

/// Sign-extend a two's complement number of 32 bits to 64 bits.
pub(crate) fn sign_extend_word(word: u32) -> u64
    ensures { result ≡ sign_extended 32 word }
{
    sign_extend(32, u64::from(word))
}
