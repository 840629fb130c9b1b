//! Decoding of scalar instructions and of instructions that access control registers, with a function for each
//! layout of operands.
#![tactic(auto, unfolding(rv_model::specs::instructions::Table::scan, rv_model::specs::lending::Families::rows))]

ghost use Rattle.std.specs.Prelude.{◌≡◌, IfSome, option_map, true};
ghost use Rattle.rv_decode.specs.Opcodes.{is_scalar};
ghost use Rattle.rv_model.specs.instructions.Table.{scan};
ghost use Rattle.rv_model.specs.lending.Families.{rows, Uppers, Jumps, JumpRegisters, Branches, Loads, Stores};
ghost use Rattle.rv_model.specs.lending.Families.{RegisterImmediates, ShiftImmediates, ShiftImmediateWords};
ghost use Rattle.rv_model.specs.lending.Families.{RegisterRegisters, Fences, Systems, Csrs, CsrImmediates};

use crate::scalar_operations::{
    branch_op, csr_immediate_op, csr_op, immediate_op, load_op, register_op, shift_immediate_op,
    shift_immediate_word_op, store_op, system_op, upper_op,
};
use crate::word_fields::{branch_offset, jump_offset, reg, store_immediate};
use rv_model::instructions::bits;
use rv_model::instructions::operations::SystemOp;
use rv_model::{CsrInstr, Field, Instr, ScalarInstr};

/// Decode LUI or AUIPC.
#[tactic(auto, using(crate::proofs::Scan::scan_upper))]
#[inline(always)]
pub(crate) fn upper(word: u32) -> Option<ScalarInstr>
    ensures row { option_map Instr.Scalar result ≡ scan (rows Uppers) word }
    ensures group { IfSome result (λ i. is_scalar i ≡ true) }
{
    let op = upper_op(word & 0x0000_007f)?;
    Some(ScalarInstr::Upper {
        op,
        rd: reg(word, 7),
        imm: Field::new(bits(word, 12, 20)),
    })
}

/// Decode JAL.
#[inline(always)]
pub(crate) fn jump(word: u32) -> Option<ScalarInstr>
    ensures row { option_map Instr.Scalar result ≡ scan (rows Jumps) word }
    ensures group { IfSome result (λ i. is_scalar i ≡ true) }
{
    if word & 0x0000_007f == 0x0000_006f {
        Some(ScalarInstr::Jump {
            rd: reg(word, 7),
            imm: jump_offset(word),
        })
    } else {
        None
    }
}

/// Decode JALR.
#[inline(always)]
pub(crate) fn jump_register(word: u32) -> Option<ScalarInstr>
    ensures row { option_map Instr.Scalar result ≡ scan (rows JumpRegisters) word }
    ensures group { IfSome result (λ i. is_scalar i ≡ true) }
{
    if word & 0x0000_707f == 0x0000_0067 {
        Some(ScalarInstr::JumpRegister {
            rd: reg(word, 7),
            rs1: reg(word, 15),
            imm: Field::new(bits(word, 20, 12)),
        })
    } else {
        None
    }
}

/// Decode BRANCH.
#[tactic(auto, using(crate::proofs::Scan::scan_branch))]
#[inline(always)]
pub(crate) fn branch(word: u32) -> Option<ScalarInstr>
    ensures row { option_map Instr.Scalar result ≡ scan (rows Branches) word }
    ensures group { IfSome result (λ i. is_scalar i ≡ true) }
{
    let op = branch_op(word & 0x0000_707f)?;
    Some(ScalarInstr::Branch {
        op,
        rs1: reg(word, 15),
        rs2: reg(word, 20),
        imm: branch_offset(word),
    })
}

/// Decode LOAD.
#[tactic(auto, using(crate::proofs::Scan::scan_load))]
#[inline(always)]
pub(crate) fn load(word: u32) -> Option<ScalarInstr>
    ensures row { option_map Instr.Scalar result ≡ scan (rows Loads) word }
    ensures group { IfSome result (λ i. is_scalar i ≡ true) }
{
    let op = load_op(word & 0x0000_707f)?;
    Some(ScalarInstr::Load {
        op,
        rd: reg(word, 7),
        rs1: reg(word, 15),
        imm: Field::new(bits(word, 20, 12)),
    })
}

/// Decode STORE.
#[tactic(auto, using(crate::proofs::Scan::scan_store))]
#[inline(always)]
pub(crate) fn store(word: u32) -> Option<ScalarInstr>
    ensures row { option_map Instr.Scalar result ≡ scan (rows Stores) word }
    ensures group { IfSome result (λ i. is_scalar i ≡ true) }
{
    let op = store_op(word & 0x0000_707f)?;
    Some(ScalarInstr::Store {
        op,
        rs1: reg(word, 15),
        rs2: reg(word, 20),
        imm: store_immediate(word),
    })
}

/// Decode OP-IMM or OP-IMM-32 with an immediate of 12 bits.
#[tactic(auto, using(crate::proofs::Scan::scan_register_immediate))]
#[inline(always)]
pub(crate) fn register_immediate(word: u32) -> Option<ScalarInstr>
    ensures row { option_map Instr.Scalar result ≡ scan (rows RegisterImmediates) word }
    ensures group { IfSome result (λ i. is_scalar i ≡ true) }
{
    let op = immediate_op(word & 0x0000_707f)?;
    Some(ScalarInstr::RegisterImmediate {
        op,
        rd: reg(word, 7),
        rs1: reg(word, 15),
        imm: Field::new(bits(word, 20, 12)),
    })
}

/// Decode OP-IMM with a shift amount.
#[tactic(auto, using(crate::proofs::Scan::scan_shift_immediate))]
#[inline(always)]
pub(crate) fn shift_immediate(word: u32) -> Option<ScalarInstr>
    ensures row { option_map Instr.Scalar result ≡ scan (rows ShiftImmediates) word }
    ensures group { IfSome result (λ i. is_scalar i ≡ true) }
{
    let op = shift_immediate_op(word & 0xfc00_707f)?;
    Some(ScalarInstr::ShiftImmediate {
        op,
        rd: reg(word, 7),
        rs1: reg(word, 15),
        shamt: Field::new(bits(word, 20, 6)),
    })
}

/// Decode OP-IMM-32 with a shift amount.
#[tactic(auto, using(crate::proofs::Scan::scan_shift_immediate_word))]
#[inline(always)]
pub(crate) fn shift_immediate_word(word: u32) -> Option<ScalarInstr>
    ensures row { option_map Instr.Scalar result ≡ scan (rows ShiftImmediateWords) word }
    ensures group { IfSome result (λ i. is_scalar i ≡ true) }
{
    let op = shift_immediate_word_op(word & 0xfe00_707f)?;
    Some(ScalarInstr::ShiftImmediateWord {
        op,
        rd: reg(word, 7),
        rs1: reg(word, 15),
        shamt: Field::new(bits(word, 20, 5)),
    })
}

/// Decode OP or OP-32.
#[tactic(auto, using(crate::proofs::Scan::scan_register_register))]
#[inline(always)]
pub(crate) fn register_register(word: u32) -> Option<ScalarInstr>
    ensures row { option_map Instr.Scalar result ≡ scan (rows RegisterRegisters) word }
    ensures group { IfSome result (λ i. is_scalar i ≡ true) }
{
    let op = register_op(word & 0xfe00_707f)?;
    Some(ScalarInstr::RegisterRegister {
        op,
        rd: reg(word, 7),
        rs1: reg(word, 15),
        rs2: reg(word, 20),
    })
}

/// Decode FENCE of MISC-MEM.
#[inline(always)]
pub(crate) fn fence(word: u32) -> Option<ScalarInstr>
    ensures row { option_map Instr.Scalar result ≡ scan (rows Fences) word }
    ensures group { IfSome result (λ i. is_scalar i ≡ true) }
{
    if word & 0x0000_707f == 0x0000_000f {
        Some(ScalarInstr::Fence {
            rd: reg(word, 7),
            rs1: reg(word, 15),
            ordering: Field::new(bits(word, 20, 12)),
        })
    } else {
        None
    }
}

/// Decode ECALL or EBREAK of SYSTEM.
#[tactic(auto, using(crate::proofs::Scan::scan_system))]
pub(crate) fn system(word: u32) -> Option<SystemOp>
    ensures { option_map (λ op. Instr.Scalar (ScalarInstr.System op)) result ≡ scan (rows Systems) word }
{
    system_op(word)
}

/// Decode an instruction of Zicsr with a scalar register.
#[tactic(auto, using(crate::proofs::Scan::scan_csr))]
pub(crate) fn csr(word: u32) -> Option<CsrInstr>
    ensures { option_map Instr.Csr result ≡ scan (rows Csrs) word }
{
    let op = csr_op(word & 0x0000_707f)?;
    Some(CsrInstr::Register {
        op,
        rd: reg(word, 7),
        rs1: reg(word, 15),
        csr: Field::new(bits(word, 20, 12)),
    })
}

/// Decode an instruction of Zicsr with an immediate.
#[tactic(auto, using(crate::proofs::Scan::scan_csr_immediate))]
pub(crate) fn csr_immediate(word: u32) -> Option<CsrInstr>
    ensures { option_map Instr.Csr result ≡ scan (rows CsrImmediates) word }
{
    let op = csr_immediate_op(word & 0x0000_707f)?;
    Some(CsrInstr::Immediate {
        op,
        rd: reg(word, 7),
        imm: Field::new(bits(word, 15, 5)),
        csr: Field::new(bits(word, 20, 12)),
    })
}
