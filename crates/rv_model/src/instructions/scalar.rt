//! Instructions of RV64I and its extension M, by operand shape.
use crate::instructions::operands::{Field, Reg};
use crate::instructions::operations::{
    BranchOp, ImmediateOp, LoadOp, RegisterOp, ShiftImmediateOp, ShiftImmediateWordOp, StoreOp,
    SystemOp, UpperOp,
};

/// An instruction on scalar registers and memory: its operation, and each operand that its word encodes.
#[derive(Clone, Copy)]
pub enum ScalarInstr {
    /// `lui rd, imm`, `auipc rd, imm`: the upper 20 bits of a 32-bit number.
    Upper {
        op: UpperOp,
        rd: Reg,
        imm: Field<20>,
    },
    /// `jal rd, imm`: `imm` has bits 20 to 1 of the distance in bytes.
    Jump {
        rd: Reg,
        imm: Field<20>,
    },
    /// `jalr rd, imm(rs1)`.
    JumpRegister {
        rd: Reg,
        rs1: Reg,
        imm: Field<12>,
    },
    /// `beq rs1, rs2, imm` and its variants: `imm` has bits 12 to 1 of the distance in bytes.
    Branch {
        op: BranchOp,
        rs1: Reg,
        rs2: Reg,
        imm: Field<12>,
    },
    /// `ld rd, imm(rs1)` and its variants.
    Load {
        op: LoadOp,
        rd: Reg,
        rs1: Reg,
        imm: Field<12>,
    },
    /// `sd rs2, imm(rs1)` and its variants.
    Store {
        op: StoreOp,
        rs1: Reg,
        rs2: Reg,
        imm: Field<12>,
    },
    /// `addi rd, rs1, imm` and its variants.
    RegisterImmediate {
        op: ImmediateOp,
        rd: Reg,
        rs1: Reg,
        imm: Field<12>,
    },
    /// `slli rd, rs1, shamt` and its variants: `shamt` is the shift amount in bits.
    ShiftImmediate {
        op: ShiftImmediateOp,
        rd: Reg,
        rs1: Reg,
        shamt: Field<6>,
    },
    /// `slliw rd, rs1, shamt` and its variants.
    ShiftImmediateWord {
        op: ShiftImmediateWordOp,
        rd: Reg,
        rs1: Reg,
        shamt: Field<5>,
    },
    /// `add rd, rs1, rs2` and its variants.
    RegisterRegister {
        op: RegisterOp,
        rd: Reg,
        rs1: Reg,
        rs2: Reg,
    },
    /// `fence`, with the register fields that it ignores and the 12 bits of fm, pred and succ.
    Fence {
        rd: Reg,
        rs1: Reg,
        ordering: Field<12>,
    },
    /// `ecall`, `ebreak`.
    System {
        op: SystemOp,
    },
}
