//! The scalar registers of a machine.
ghost use Rattle.std.specs.Prelude.{◌≡◌};
ghost use Rattle.rv_model.specs.scalar.Registers.{read_register, with_register, initial_scalar};

use crate::instructions::Reg;

/// The registers x0 to x31 and the program counter, 64 bits each
/// (Unprivileged ISA 20191213, section 2.1, "Programmers' Model for Base Integer ISA").
#[derive(Clone, Copy)]
pub struct Scalar {
    pub x: [u64; 32],
    pub pc: u64,
}

impl Scalar {
    /// Return registers that are all zero, and a program counter of zero.
    #[tactic(auto, unfolding(crate::specs::scalar::Registers::initial_scalar))]
    pub fn new() -> Scalar
        ensures { result ≡ initial_scalar }
    {
        Scalar { x: [0; 32], pc: 0 }
    }

    /// Return the value of a register; x0 is 0.
    pub fn read(&self, register: Reg) -> u64
        ensures { result ≡ read_register self.now register }
    {
        self.x[register.number() as usize]
    }

    /// Write a register; a write to x0 changes nothing.
    pub fn write(&mut self, register: Reg, value: u64)
        ensures { self.new ≡ with_register register value self.old }
    {
        let number = register.number() as usize;
        if number != 0 {
            self.x[number] = value;
        }
    }
}
