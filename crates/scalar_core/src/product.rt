//! Full products, and their upper halves (Unprivileged ISA 20191213, section 7.1).
ghost use Rattle.std.specs.Prelude.{◌≡◌, ◌*ℤ◌, pos};
ghost use Rattle.std.specs.Int.{w64, cast_unsigned};
ghost use Rattle.rv_model.specs.scalar.Arithmetic.{high_product, mixed_high_product, signed_high_product};

/// Return the full 128-bit product of two signed 64-bit numbers.
pub fn full_signed(a: i64, b: i64) -> i128
    ensures { result ≡ a *ℤ b }
{
    i128::from(a) * i128::from(b)
}

/// Return the full 128-bit product of a signed and an unsigned 64-bit number.
pub fn full_mixed(a: i64, b: u64) -> i128
    ensures { result ≡ a *ℤ pos b }
{
    i128::from(a) * i128::from(b)
}

/// Return the upper 64 bits of the product of two signed numbers.
pub(crate) fn high_signed(a: u64, b: u64) -> u64
    ensures { result ≡ cast_unsigned w64 (signed_high_product w64 a b) }
{
    let product = full_signed(a.cast_signed(), b.cast_signed());
    ((product >> 64) as i64).cast_unsigned()
}

/// Return the upper 64 bits of the product of a signed and an unsigned number.
pub(crate) fn high_mixed(a: u64, b: u64) -> u64
    ensures { result ≡ cast_unsigned w64 (mixed_high_product w64 a b) }
{
    let product = full_mixed(a.cast_signed(), b);
    ((product >> 64) as i64).cast_unsigned()
}

/// Return the upper 64 bits of the product of two unsigned numbers.
pub(crate) fn high_unsigned(a: u64, b: u64) -> u64
    ensures { result ≡ high_product w64 a b }
{
    ((u128::from(a) * u128::from(b)) >> 64) as u64
}
