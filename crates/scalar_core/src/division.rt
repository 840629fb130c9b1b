//! Division, of 64 and of 32 bits (Unprivileged ISA 20191213, section 7.2): no division traps.
ghost use Rattle.std.specs.Prelude.{◌≡◌};
ghost use Rattle.std.specs.Int.{w32, w64};
ghost use Rattle.rv_model.specs.scalar.Arithmetic.{overflows, quotient, remainder, signed_quotient, signed_remainder};

/// Return whether the signed quotient overflows: the least number divided by -1.
fn overflows(a: u64, b: u64) -> bool
    ensures { result ≡ overflows w64 a b }
{
    a == 1 << 63 && b == u64::MAX
}

/// Return whether the signed quotient overflows: the least number divided by -1.
fn overflows_word(a: u32, b: u32) -> bool
    ensures { result ≡ overflows w32 a b }
{
    a == 1 << 31 && b == u32::MAX
}

/// Return the unsigned quotient; all ones if the divisor is zero.
pub(crate) fn divide(a: u64, b: u64) -> u64
    ensures { result ≡ quotient w64 a b }
{
    if b == 0 { u64::MAX } else { a / b }
}

/// Return the unsigned remainder; the dividend if the divisor is zero.
pub(crate) fn remainder(a: u64, b: u64) -> u64
    ensures { result ≡ remainder w64 a b }
{
    if b == 0 { a } else { a % b }
}

/// Return the signed quotient; all ones if the divisor is zero, and the dividend on overflow.
pub(crate) fn divide_signed(a: u64, b: u64) -> u64
    ensures { result ≡ signed_quotient w64 a b }
{
    if b == 0 {
        u64::MAX
    } else if overflows(a, b) {
        a
    } else {
        (a.cast_signed() / b.cast_signed()).cast_unsigned()
    }
}

/// Return the signed remainder; the dividend if the divisor is zero, and zero on overflow.
pub(crate) fn remainder_signed(a: u64, b: u64) -> u64
    ensures { result ≡ signed_remainder w64 a b }
{
    if b == 0 {
        a
    } else if overflows(a, b) {
        0
    } else {
        a.cast_signed()
            .wrapping_rem(b.cast_signed())
            .cast_unsigned()
    }
}

/// Return the unsigned quotient; all ones if the divisor is zero.
pub(crate) fn divide_word(a: u32, b: u32) -> u32
    ensures { result ≡ quotient w32 a b }
{
    if b == 0 { u32::MAX } else { a / b }
}

/// Return the unsigned remainder; the dividend if the divisor is zero.
pub(crate) fn remainder_word(a: u32, b: u32) -> u32
    ensures { result ≡ remainder w32 a b }
{
    if b == 0 { a } else { a % b }
}

/// Return the signed quotient; all ones if the divisor is zero, and the dividend on overflow.
pub(crate) fn divide_signed_word(a: u32, b: u32) -> u32
    ensures { result ≡ signed_quotient w32 a b }
{
    if b == 0 {
        u32::MAX
    } else if overflows_word(a, b) {
        a
    } else {
        (a.cast_signed() / b.cast_signed()).cast_unsigned()
    }
}

/// Return the signed remainder; the dividend if the divisor is zero, and zero on overflow.
pub(crate) fn remainder_signed_word(a: u32, b: u32) -> u32
    ensures { result ≡ signed_remainder w32 a b }
{
    if b == 0 {
        a
    } else if overflows_word(a, b) {
        0
    } else {
        a.cast_signed()
            .wrapping_rem(b.cast_signed())
            .cast_unsigned()
    }
}
