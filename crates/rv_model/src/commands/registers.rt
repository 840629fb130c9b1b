//! Commands on a user's registers, and on the policy for agnostic elements.
use crate::instructions::{Reg, VReg};
use crate::vector::{Policy, RegisterBytes, Sew};

/// A command on the user's registers, or on the policy for agnostic elements.
#[derive(Drop)]
pub enum RegisterCommand {
    /// `set xN HEX`: write one of the registers x1 to x31.
    Set {
        register: Reg,
        value: u64,
    },
    /// `regs`: print the program counter and the scalar registers.
    Regs,
    /// `setpc ADDR`: write the program counter; the address is divisible by 4.
    SetPc(u64),
    /// `vreg vN SEW`: print the elements of a vector register.
    Vreg {
        register: VReg,
        width: Sew,
    },
    /// `vset vN HEX`: write the 32 bytes of a vector register.
    Vset {
        register: VReg,
        bytes: RegisterBytes,
    },
    /// `vcsr`: print the vector length and type, and the other vector control registers.
    Vcsr,
    /// `policy keep` or `policy ones`: set the policy for agnostic elements.
    SetPolicy(Policy),
}
