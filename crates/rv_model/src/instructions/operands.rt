//! The operands of instructions: registers, and bit fields of a word.
ghost use Rattle.std.specs.Prelude.{◌≡◌, ◌<◌, ◌^◌};

use std::marker::Model;

/// One of the 32 scalar registers, x0 to x31.
#[derive(Clone, Copy)]
pub struct Reg {
    number: u32,
}

impl Model for Reg {
    ghost use Rattle.std.specs.Prelude.{ℕ, ◌<◌};

    ghost Value = { ℕ };

    ghost view = { λ r. r.number };

    ghost invariant = { λ r. r.number < 32 };

    ghost inverse = { λ n. record { number = n } };
}

impl Reg {
    /// Return the scalar register with this number, 0 to 31.
    pub fn new(number: u32) -> Reg
        requires { number < 32 }
        ensures { result ≡ number }
    {
        Reg { number }
    }

    /// Return the register's number, 0 to 31.
    pub fn number(self) -> u32
        ensures value { result ≡ self }
        ensures small { self < 32 }
    {
        self.number
    }
}

/// One of the 32 vector registers, v0 to v31.
#[derive(Clone, Copy)]
pub struct VReg {
    number: u32,
}

impl Model for VReg {
    ghost use Rattle.std.specs.Prelude.{ℕ, ◌<◌};

    ghost Value = { ℕ };

    ghost view = { λ r. r.number };

    ghost invariant = { λ r. r.number < 32 };

    ghost inverse = { λ n. record { number = n } };
}

impl VReg {
    /// Return the vector register with this number, 0 to 31.
    pub fn new(number: u32) -> VReg
        requires { number < 32 }
        ensures { result ≡ number }
    {
        VReg { number }
    }

    /// Return the register's number, 0 to 31.
    pub fn number(self) -> u32
        ensures value { result ≡ self }
        ensures small { self < 32 }
    {
        self.number
    }
}

/// A bit field of a word, `BITS` bits wide, read as an unsigned number.
#[derive(Clone, Copy)]
pub struct Field<const BITS: u32> {
    value: u32,
}

impl<const BITS: u32> Model for Field<BITS> {
    ghost use Rattle.std.specs.Prelude.{ℕ, ◌<◌, ◌^◌};

    ghost Value = { ℕ };

    ghost view = { λ f. f.value };

    ghost invariant = { λ f. f.value < 2 ^ BITS };

    ghost inverse = { λ n. record { value = n } };
}

impl<const BITS: u32> Field<BITS> {
    /// Return the field with this value, which must be below 2^`BITS`.
    pub fn new(value: u32) -> Field<BITS>
        requires { value < 2 ^ BITS }
        ensures { result ≡ value }
    {
        Field { value }
    }

    /// Return the field's value, below 2^`BITS`.
    pub fn value(self) -> u32
        ensures value { result ≡ self.entry }
        ensures small { self.entry < 2 ^ BITS }
    {
        self.value
    }
}
