//! Instructions that read and write a control register (Unprivileged ISA 20191213, chapter 9).
use crate::instructions::operands::{Field, Reg};
use crate::instructions::operations::{CsrImmediateOp, CsrOp};

/// An instruction on a control register; `csr` is its 12-bit number.
#[derive(Clone, Copy)]
pub enum CsrInstr {
    /// `csrrw rd, csr, rs1` and its variants; `csr` is the 12-bit number of the control register.
    Register {
        op: CsrOp,
        rd: Reg,
        rs1: Reg,
        csr: Field<12>,
    },
    /// `csrrwi rd, csr, imm` and its variants.
    Immediate {
        op: CsrImmediateOp,
        rd: Reg,
        imm: Field<5>,
        csr: Field<12>,
    },
}
