//! Rounding of numbers whose low bits are dropped ("V" Vector Extension 1.0, section 3.8).
ghost use Rattle.std.specs.Prelude.{◌≡◌, ◌%◌, ◌<◌, ◌&&◌, nat_lt, pos};
ghost use Rattle.rv_model.specs.elements.FixedPoint.{rounded, rounds_up};
ghost use Rattle.rv_model.specs.elements.Formulas.{low_bits};
ghost use Rattle.rv_model.specs.declared.vector.state.RoundingMode.{RoundingMode};
ghost use Rattle.rv_model.specs.declared.vector.state.RoundingMode.TheVariants.{Down, NearestEven, NearestUp, Odd};
ghost use mir.Val.{bits};

use lane_arith::Lane;

/// A rounding mode as a type, so that the compiler generates a loop for each mode.
pub trait Rounding {
    // The rounding mode.
    ghost mode: { RoundingMode };

    /// Return whether rounding adds 1 when the low `count` bits of `number` are dropped. The result is false if
    /// `count` is 0.
    fn rounds_up(count: u32, number: u64) -> bool
        requires { count < 64 }
        ensures { result ≡ (nat_lt 0 count && rounds_up mode count (pos number)) };
}

/// Round to the nearest number, and up if two are equally near (`rnu`).
#[derive(Clone, Copy)]
pub struct ToNearestUp;

/// Round to the nearest number, and to the even one if two are equally near (`rne`).
#[derive(Clone, Copy)]
pub struct ToNearestEven;

/// Round down (`rdn`).
#[derive(Clone, Copy)]
pub struct ToDown;

/// Round to odd (`rod`): if the dropped bits aren't all zeros, the lowest bit of the result is set.
#[derive(Clone, Copy)]
pub struct ToOdd;

impl Rounding for ToNearestUp {
    ghost mode = { NearestUp };

    fn rounds_up(count: u32, number: u64) -> bool {
        (number << 1 >> count) % 2 == 1
    }
}

impl Rounding for ToNearestEven {
    ghost mode = { NearestEven };

    fn rounds_up(count: u32, number: u64) -> bool {
        let twice = number << 1;
        let half = (twice >> count) % 2 == 1;
        let rest = twice % (1 << count) != 0;
        let odd = (number >> count) % 2 == 1;
        half & (rest | odd)
    }
}

impl Rounding for ToDown {
    ghost mode = { Down };

    fn rounds_up(_count: u32, _number: u64) -> bool {
        false
    }
}

impl Rounding for ToOdd {
    ghost mode = { Odd };

    fn rounds_up(count: u32, number: u64) -> bool {
        (number >> count) % 2 == 0 && number % (1 << count) != 0
    }
}

/// The low 64 bits of a number.
fn low_half(number: i128) -> u64
    ensures { result ≡ low_bits 64 number }
{
    (number.cast_unsigned() % (1 << 64)) as u64
}

/// An unsigned number without its low `count` bits, rounded.
pub(crate) fn rounded<M: Rounding>(count: u32, number: u64) -> u64
    requires { count < 64 }
    ensures { pos result ≡ rounded M.mode count (pos number) }
{
    (number >> count) + u64::from(M::rounds_up(count, number))
}

/// A signed number without its low `count` bits, rounded.
pub(crate) fn signed_rounded<M: Rounding>(count: u32, number: i64) -> i64
    requires { count < 64 }
    ensures { result ≡ rounded M.mode count number }
{
    (number >> count) + i64::from(M::rounds_up(count, number.cast_unsigned()))
}

/// A signed number of 128 bits without its low `count` bits, rounded.
pub(crate) fn wide_rounded<M: Rounding>(count: u32, number: i128) -> i128
    requires { count < 64 }
    ensures { result ≡ rounded M.mode count number }
{
    (number >> count) + i128::from(M::rounds_up(count, low_half(number)))
}

/// The number of bits by which a shift at the width of `W` shifts: the low bits of `amount`.
pub(crate) fn shift_amount<N: Lane, W: Lane>(amount: N) -> u32
    ensures { result ≡ N.value amount % bits W.width }
{
    (amount.number() % u64::from(W::bits())) as u32
}
