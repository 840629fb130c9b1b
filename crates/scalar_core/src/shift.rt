//! Shifts, of 64 and of 32 bits (Unprivileged ISA 20191213, sections 2.4 and 5.2).
ghost use Rattle.std.specs.Prelude.{◌≡◌};
ghost use Rattle.std.specs.Int.{w32, w64};
ghost use Rattle.rv_model.specs.scalar.Arithmetic.{shifted_left, shifted_right, shifted_right_signed};

/// Shift left by the low 6 bits of the amount.
pub(crate) fn left(a: u64, amount: u64) -> u64
    ensures { result ≡ shifted_left w64 a amount }
{
    a << (amount % 64)
}

/// Shift right by the low 6 bits of the amount, and fill the upper bits with zeros.
pub(crate) fn right(a: u64, amount: u64) -> u64
    ensures { result ≡ shifted_right w64 a amount }
{
    a >> (amount % 64)
}

/// Shift right by the low 6 bits of the amount, and fill the upper bits with the sign.
pub(crate) fn right_signed(a: u64, amount: u64) -> u64
    ensures { result ≡ shifted_right_signed w64 a amount }
{
    (a.cast_signed() >> (amount % 64)).cast_unsigned()
}

/// Shift left by the low 5 bits of the amount.
pub(crate) fn left_word(a: u32, amount: u32) -> u32
    ensures { result ≡ shifted_left w32 a amount }
{
    a << (amount % 32)
}

/// Shift right by the low 5 bits of the amount, and fill the upper bits with zeros.
pub(crate) fn right_word(a: u32, amount: u32) -> u32
    ensures { result ≡ shifted_right w32 a amount }
{
    a >> (amount % 32)
}

/// Shift right by the low 5 bits of the amount, and fill the upper bits with the sign.
pub(crate) fn right_signed_word(a: u32, amount: u32) -> u32
    ensures { result ≡ shifted_right_signed w32 a amount }
{
    (a.cast_signed() >> (amount % 32)).cast_unsigned()
}
