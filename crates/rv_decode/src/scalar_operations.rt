//! Decoding of scalar operations by their fixed bits.
#![tactic(auto, unfolding(rv_model::specs::lending::Search::find))]

ghost use Rattle.std.specs.Prelude.{◌≡◌};
ghost use Rattle.rv_model.specs.lending.Families.{upper_ops, branch_ops, load_ops, store_ops, immediate_ops};
ghost use Rattle.rv_model.specs.lending.Families.{shift_immediate_ops, shift_immediate_word_ops, register_ops};
ghost use Rattle.rv_model.specs.lending.Families.{system_ops, csr_ops, csr_immediate_ops};
ghost use Rattle.rv_model.specs.lending.ListedBits.{upper_bits, branch_bits, load_bits, store_bits, immediate_op_bits};
ghost use Rattle.rv_model.specs.lending.ListedBits.{shift_immediate_bits, shift_immediate_word_bits, register_op_bits};
ghost use Rattle.rv_model.specs.lending.ListedBits.{system_bits, csr_bits, csr_immediate_bits};
ghost use Rattle.rv_model.specs.lending.Search.{find};

use rv_model::instructions::operations::{
    BranchOp, CsrImmediateOp, CsrOp, ImmediateOp, LoadOp, RegisterOp, ShiftImmediateOp,
    ShiftImmediateWordOp, StoreOp, SystemOp, UpperOp,
};

/// The operation of `ScalarInstr::Upper` with these fixed bits.
pub(crate) fn upper_op(bits: u32) -> Option<UpperOp>
    ensures { result ≡ find upper_bits upper_ops bits }
{
    match bits {
        0x0000_0037 => Some(UpperOp::Lui),
        0x0000_0017 => Some(UpperOp::Auipc),
        _ => None,
    }
}

/// The operation of `ScalarInstr::Branch` with these fixed bits.
pub(crate) fn branch_op(bits: u32) -> Option<BranchOp>
    ensures { result ≡ find branch_bits branch_ops bits }
{
    match bits {
        0x0000_0063 => Some(BranchOp::Beq),
        0x0000_1063 => Some(BranchOp::Bne),
        0x0000_4063 => Some(BranchOp::Blt),
        0x0000_5063 => Some(BranchOp::Bge),
        0x0000_6063 => Some(BranchOp::Bltu),
        0x0000_7063 => Some(BranchOp::Bgeu),
        _ => None,
    }
}

/// The operation of `ScalarInstr::Load` with these fixed bits.
pub(crate) fn load_op(bits: u32) -> Option<LoadOp>
    ensures { result ≡ find load_bits load_ops bits }
{
    match bits {
        0x0000_0003 => Some(LoadOp::Lb),
        0x0000_1003 => Some(LoadOp::Lh),
        0x0000_2003 => Some(LoadOp::Lw),
        0x0000_3003 => Some(LoadOp::Ld),
        0x0000_4003 => Some(LoadOp::Lbu),
        0x0000_5003 => Some(LoadOp::Lhu),
        0x0000_6003 => Some(LoadOp::Lwu),
        _ => None,
    }
}

/// The operation of `ScalarInstr::Store` with these fixed bits.
pub(crate) fn store_op(bits: u32) -> Option<StoreOp>
    ensures { result ≡ find store_bits store_ops bits }
{
    match bits {
        0x0000_0023 => Some(StoreOp::Sb),
        0x0000_1023 => Some(StoreOp::Sh),
        0x0000_2023 => Some(StoreOp::Sw),
        0x0000_3023 => Some(StoreOp::Sd),
        _ => None,
    }
}

/// The operation of `ScalarInstr::RegisterImmediate` with these fixed bits.
pub(crate) fn immediate_op(bits: u32) -> Option<ImmediateOp>
    ensures { result ≡ find immediate_op_bits immediate_ops bits }
{
    match bits {
        0x0000_0013 => Some(ImmediateOp::Addi),
        0x0000_2013 => Some(ImmediateOp::Slti),
        0x0000_3013 => Some(ImmediateOp::Sltiu),
        0x0000_4013 => Some(ImmediateOp::Xori),
        0x0000_6013 => Some(ImmediateOp::Ori),
        0x0000_7013 => Some(ImmediateOp::Andi),
        0x0000_001b => Some(ImmediateOp::Addiw),
        _ => None,
    }
}

/// The operation of `ScalarInstr::ShiftImmediate` with these fixed bits.
pub(crate) fn shift_immediate_op(bits: u32) -> Option<ShiftImmediateOp>
    ensures { result ≡ find shift_immediate_bits shift_immediate_ops bits }
{
    match bits {
        0x0000_1013 => Some(ShiftImmediateOp::Slli),
        0x0000_5013 => Some(ShiftImmediateOp::Srli),
        0x4000_5013 => Some(ShiftImmediateOp::Srai),
        _ => None,
    }
}

/// The operation of `ScalarInstr::ShiftImmediateWord` with these fixed bits.
pub(crate) fn shift_immediate_word_op(bits: u32) -> Option<ShiftImmediateWordOp>
    ensures { result ≡ find shift_immediate_word_bits shift_immediate_word_ops bits }
{
    match bits {
        0x0000_101b => Some(ShiftImmediateWordOp::Slliw),
        0x0000_501b => Some(ShiftImmediateWordOp::Srliw),
        0x4000_501b => Some(ShiftImmediateWordOp::Sraiw),
        _ => None,
    }
}

/// The operation of `ScalarInstr::RegisterRegister` with these fixed bits.
#[inline(always)]
pub(crate) fn register_op(bits: u32) -> Option<RegisterOp>
    ensures { result ≡ find register_op_bits register_ops bits }
{
    match bits {
        0x0000_0033 => Some(RegisterOp::Add),
        0x4000_0033 => Some(RegisterOp::Sub),
        0x0000_1033 => Some(RegisterOp::Sll),
        0x0000_2033 => Some(RegisterOp::Slt),
        0x0000_3033 => Some(RegisterOp::Sltu),
        0x0000_4033 => Some(RegisterOp::Xor),
        0x0000_5033 => Some(RegisterOp::Srl),
        0x4000_5033 => Some(RegisterOp::Sra),
        0x0000_6033 => Some(RegisterOp::Or),
        0x0000_7033 => Some(RegisterOp::And),
        0x0200_0033 => Some(RegisterOp::Mul),
        0x0200_1033 => Some(RegisterOp::Mulh),
        0x0200_2033 => Some(RegisterOp::Mulhsu),
        0x0200_3033 => Some(RegisterOp::Mulhu),
        0x0200_4033 => Some(RegisterOp::Div),
        0x0200_5033 => Some(RegisterOp::Divu),
        0x0200_6033 => Some(RegisterOp::Rem),
        0x0200_7033 => Some(RegisterOp::Remu),
        0x0000_003b => Some(RegisterOp::Addw),
        0x4000_003b => Some(RegisterOp::Subw),
        0x0000_103b => Some(RegisterOp::Sllw),
        0x0000_503b => Some(RegisterOp::Srlw),
        0x4000_503b => Some(RegisterOp::Sraw),
        0x0200_003b => Some(RegisterOp::Mulw),
        0x0200_403b => Some(RegisterOp::Divw),
        0x0200_503b => Some(RegisterOp::Divuw),
        0x0200_603b => Some(RegisterOp::Remw),
        0x0200_703b => Some(RegisterOp::Remuw),
        _ => None,
    }
}

/// The operation of `ScalarInstr::System` with these fixed bits.
pub(crate) fn system_op(bits: u32) -> Option<SystemOp>
    ensures { result ≡ find system_bits system_ops bits }
{
    match bits {
        0x0000_0073 => Some(SystemOp::Ecall),
        0x0010_0073 => Some(SystemOp::Ebreak),
        _ => None,
    }
}

/// The operation of `CsrInstr::Register` with these fixed bits.
pub(crate) fn csr_op(bits: u32) -> Option<CsrOp>
    ensures { result ≡ find csr_bits csr_ops bits }
{
    match bits {
        0x0000_1073 => Some(CsrOp::Csrrw),
        0x0000_2073 => Some(CsrOp::Csrrs),
        0x0000_3073 => Some(CsrOp::Csrrc),
        _ => None,
    }
}

/// The operation of `CsrInstr::Immediate` with these fixed bits.
pub(crate) fn csr_immediate_op(bits: u32) -> Option<CsrImmediateOp>
    ensures { result ≡ find csr_immediate_bits csr_immediate_ops bits }
{
    match bits {
        0x0000_5073 => Some(CsrImmediateOp::Csrrwi),
        0x0000_6073 => Some(CsrImmediateOp::Csrrsi),
        0x0000_7073 => Some(CsrImmediateOp::Csrrci),
        _ => None,
    }
}
