//! The fixed bits of each operation in its 32-bit word.
ghost use Rattle.std.specs.Prelude.{◌≡◌, ◌<◌, ◌^◌};
ghost use Rattle.rv_model.specs.instructions.FixedBits.{count_bits, direction_bits, order_bits, unit_bits, width_bits};
ghost use Rattle.rv_model.specs.lending.ListedBits.{mask_memory_bits, move_bits, whole_move_bits, branch_bits};
ghost use Rattle.rv_model.specs.lending.ListedBits.{csr_bits, csr_immediate_bits, extend_bits, load_bits};
ghost use Rattle.rv_model.specs.lending.ListedBits.{mask_logic_bits, mask_to_scalar_bits, mask_unary_bits};
ghost use Rattle.rv_model.specs.lending.ListedBits.{register_op_bits, immediate_op_bits, shift_immediate_bits};
ghost use Rattle.rv_model.specs.lending.ListedBits.{shift_immediate_word_bits, store_bits, system_bits, upper_bits};

use rv_model::instructions::operations::{
    BranchOp, CsrImmediateOp, CsrOp, Direction, Eew, ExtendOp, Form, ImmediateOp, LoadOp,
    MaskLogicOp, MaskScanOp, MaskToScalarOp, MaskUnaryOp, Order, RegisterCount, RegisterOp,
    ShiftImmediateOp, ShiftImmediateWordOp, StoreOp, SystemOp, UnitOp, UpperOp,
};

/// LUI, AUIPC.
pub(crate) fn upper_bits(op: UpperOp) -> u64
    ensures value { result ≡ upper_bits op }
    ensures small { result < 2 ^ 32 }
{
    match op {
        UpperOp::Lui => 0x0000_0037,
        UpperOp::Auipc => 0x0000_0017,
    }
}

/// BRANCH, by funct3.
pub(crate) fn branch_bits(op: BranchOp) -> u64
    ensures value { result ≡ branch_bits op }
    ensures small { result < 2 ^ 32 }
{
    match op {
        BranchOp::Beq => 0x0000_0063,
        BranchOp::Bne => 0x0000_1063,
        BranchOp::Blt => 0x0000_4063,
        BranchOp::Bge => 0x0000_5063,
        BranchOp::Bltu => 0x0000_6063,
        BranchOp::Bgeu => 0x0000_7063,
    }
}

/// LOAD, by funct3.
pub(crate) fn load_bits(op: LoadOp) -> u64
    ensures value { result ≡ load_bits op }
    ensures small { result < 2 ^ 32 }
{
    match op {
        LoadOp::Lb => 0x0000_0003,
        LoadOp::Lh => 0x0000_1003,
        LoadOp::Lw => 0x0000_2003,
        LoadOp::Ld => 0x0000_3003,
        LoadOp::Lbu => 0x0000_4003,
        LoadOp::Lhu => 0x0000_5003,
        LoadOp::Lwu => 0x0000_6003,
    }
}

/// STORE, by funct3.
pub(crate) fn store_bits(op: StoreOp) -> u64
    ensures value { result ≡ store_bits op }
    ensures small { result < 2 ^ 32 }
{
    match op {
        StoreOp::Sb => 0x0000_0023,
        StoreOp::Sh => 0x0000_1023,
        StoreOp::Sw => 0x0000_2023,
        StoreOp::Sd => 0x0000_3023,
    }
}

/// OP-IMM and OP-IMM-32, by funct3.
pub(crate) fn immediate_op_bits(op: ImmediateOp) -> u64
    ensures value { result ≡ immediate_op_bits op }
    ensures small { result < 2 ^ 32 }
{
    match op {
        ImmediateOp::Addi => 0x0000_0013,
        ImmediateOp::Slti => 0x0000_2013,
        ImmediateOp::Sltiu => 0x0000_3013,
        ImmediateOp::Xori => 0x0000_4013,
        ImmediateOp::Ori => 0x0000_6013,
        ImmediateOp::Andi => 0x0000_7013,
        ImmediateOp::Addiw => 0x0000_001b,
    }
}

/// OP-IMM with a shift amount of six bits.
pub(crate) fn shift_immediate_bits(op: ShiftImmediateOp) -> u64
    ensures value { result ≡ shift_immediate_bits op }
    ensures small { result < 2 ^ 32 }
{
    match op {
        ShiftImmediateOp::Slli => 0x0000_1013,
        ShiftImmediateOp::Srli => 0x0000_5013,
        ShiftImmediateOp::Srai => 0x4000_5013,
    }
}

/// OP-IMM-32 with a shift amount of five bits.
pub(crate) fn shift_immediate_word_bits(op: ShiftImmediateWordOp) -> u64
    ensures value { result ≡ shift_immediate_word_bits op }
    ensures small { result < 2 ^ 32 }
{
    match op {
        ShiftImmediateWordOp::Slliw => 0x0000_101b,
        ShiftImmediateWordOp::Srliw => 0x0000_501b,
        ShiftImmediateWordOp::Sraiw => 0x4000_501b,
    }
}

/// OP and OP-32, by funct3 and funct7.
pub(crate) fn register_op_bits(op: RegisterOp) -> u64
    ensures value { result ≡ register_op_bits op }
    ensures small { result < 2 ^ 32 }
{
    match op {
        RegisterOp::Add => 0x0000_0033,
        RegisterOp::Sub => 0x4000_0033,
        RegisterOp::Sll => 0x0000_1033,
        RegisterOp::Slt => 0x0000_2033,
        RegisterOp::Sltu => 0x0000_3033,
        RegisterOp::Xor => 0x0000_4033,
        RegisterOp::Srl => 0x0000_5033,
        RegisterOp::Sra => 0x4000_5033,
        RegisterOp::Or => 0x0000_6033,
        RegisterOp::And => 0x0000_7033,
        RegisterOp::Mul => 0x0200_0033,
        RegisterOp::Mulh => 0x0200_1033,
        RegisterOp::Mulhsu => 0x0200_2033,
        RegisterOp::Mulhu => 0x0200_3033,
        RegisterOp::Div => 0x0200_4033,
        RegisterOp::Divu => 0x0200_5033,
        RegisterOp::Rem => 0x0200_6033,
        RegisterOp::Remu => 0x0200_7033,
        RegisterOp::Addw => 0x0000_003b,
        RegisterOp::Subw => 0x4000_003b,
        RegisterOp::Sllw => 0x0000_103b,
        RegisterOp::Srlw => 0x0000_503b,
        RegisterOp::Sraw => 0x4000_503b,
        RegisterOp::Mulw => 0x0200_003b,
        RegisterOp::Divw => 0x0200_403b,
        RegisterOp::Divuw => 0x0200_503b,
        RegisterOp::Remw => 0x0200_603b,
        RegisterOp::Remuw => 0x0200_703b,
    }
}

/// SYSTEM without operands: the fixed bits are the whole word.
pub(crate) fn system_bits(op: SystemOp) -> u64
    ensures value { result ≡ system_bits op }
    ensures small { result < 2 ^ 32 }
{
    match op {
        SystemOp::Ecall => 0x0000_0073,
        SystemOp::Ebreak => 0x0010_0073,
    }
}

/// SYSTEM with a scalar register.
pub(crate) fn csr_bits(op: CsrOp) -> u64
    ensures value { result ≡ csr_bits op }
    ensures small { result < 2 ^ 32 }
{
    match op {
        CsrOp::Csrrw => 0x0000_1073,
        CsrOp::Csrrs => 0x0000_2073,
        CsrOp::Csrrc => 0x0000_3073,
    }
}

/// SYSTEM with an immediate.
pub(crate) fn csr_immediate_bits(op: CsrImmediateOp) -> u64
    ensures value { result ≡ csr_immediate_bits op }
    ensures small { result < 2 ^ 32 }
{
    match op {
        CsrImmediateOp::Csrrwi => 0x0000_5073,
        CsrImmediateOp::Csrrsi => 0x0000_6073,
        CsrImmediateOp::Csrrci => 0x0000_7073,
    }
}

/// `vmv.v.v`, `vmv.v.x`, `vmv.v.i`.
pub(crate) fn move_bits(form: Form) -> u64
    ensures value { result ≡ move_bits form }
    ensures small { result < 2 ^ 32 }
{
    match form {
        Form::V => 0x5e00_0057,
        Form::X => 0x5e00_4057,
        Form::I => 0x5e00_3057,
    }
}

/// `vmv1r.v` to `vmv8r.v`.
pub(crate) fn whole_move_bits(count: RegisterCount) -> u64
    ensures value { result ≡ whole_move_bits count }
    ensures small { result < 2 ^ 32 }
{
    match count {
        RegisterCount::One => 0x9e00_3057,
        RegisterCount::Two => 0x9e00_b057,
        RegisterCount::Four => 0x9e01_b057,
        RegisterCount::Eight => 0x9e03_b057,
    }
}

/// Logical operations on masks, with bit 25 set.
pub(crate) fn mask_logic_bits(op: MaskLogicOp) -> u64
    ensures value { result ≡ mask_logic_bits op }
    ensures small { result < 2 ^ 32 }
{
    match op {
        MaskLogicOp::Vmandn => 0x6200_2057,
        MaskLogicOp::Vmand => 0x6600_2057,
        MaskLogicOp::Vmor => 0x6a00_2057,
        MaskLogicOp::Vmxor => 0x6e00_2057,
        MaskLogicOp::Vmorn => 0x7200_2057,
        MaskLogicOp::Vmnand => 0x7600_2057,
        MaskLogicOp::Vmnor => 0x7a00_2057,
        MaskLogicOp::Vmxnor => 0x7e00_2057,
    }
}

/// `vcpop.m`, `vfirst.m`.
pub(crate) fn mask_to_scalar_bits(op: MaskToScalarOp) -> u64
    ensures value { result ≡ mask_to_scalar_bits op }
    ensures small { result < 2 ^ 32 }
{
    match op {
        MaskToScalarOp::Vcpop => 0x4008_2057,
        MaskToScalarOp::Vfirst => 0x4008_a057,
    }
}

/// VXUNARY0.
pub(crate) fn extend_bits(op: ExtendOp) -> u64
    ensures value { result ≡ extend_bits op }
    ensures small { result < 2 ^ 32 }
{
    match op {
        ExtendOp::VzextVf8 => 0x4801_2057,
        ExtendOp::VsextVf8 => 0x4801_a057,
        ExtendOp::VzextVf4 => 0x4802_2057,
        ExtendOp::VsextVf4 => 0x4802_a057,
        ExtendOp::VzextVf2 => 0x4803_2057,
        ExtendOp::VsextVf2 => 0x4803_a057,
    }
}

/// VMUNARY0 on a mask.
pub(crate) fn mask_unary_bits(op: MaskUnaryOp) -> u64
    ensures value { result ≡ mask_unary_bits op }
    ensures small { result < 2 ^ 32 }
{
    match op {
        MaskUnaryOp::Scan(MaskScanOp::Vmsbf) => 0x5000_a057,
        MaskUnaryOp::Scan(MaskScanOp::Vmsof) => 0x5001_2057,
        MaskUnaryOp::Scan(MaskScanOp::Vmsif) => 0x5001_a057,
        MaskUnaryOp::Viota => 0x5008_2057,
    }
}

/// The width of a memory element or an index.
pub(crate) fn width_bits(width: Eew) -> u64
    ensures value { result ≡ width_bits width }
    ensures small { result < 2 ^ 32 }
{
    match width {
        Eew::E8 => 0x0000_0000,
        Eew::E16 => 0x0000_5000,
        Eew::E32 => 0x0000_6000,
        Eew::E64 => 0x0000_7000,
    }
}

/// LOAD-FP, STORE-FP.
pub(crate) fn direction_bits(direction: Direction) -> u64
    ensures value { result ≡ direction_bits direction }
    ensures small { result < 2 ^ 32 }
{
    match direction {
        Direction::Load => 0x0000_0007,
        Direction::Store => 0x0000_0027,
    }
}

/// Unit stride, with lumop or sumop.
pub(crate) fn unit_bits(op: UnitOp) -> u64
    ensures value { result ≡ unit_bits op }
    ensures small { result < 2 ^ 32 }
{
    match op {
        UnitOp::Load => 0x0000_0007,
        UnitOp::FaultOnlyFirst => 0x0100_0007,
        UnitOp::Store => 0x0000_0027,
    }
}

/// mop of an indexed access.
pub(crate) fn order_bits(order: Order) -> u64
    ensures value { result ≡ order_bits order }
    ensures small { result < 2 ^ 32 }
{
    match order {
        Order::Unordered => 0x0400_0000,
        Order::Ordered => 0x0c00_0000,
    }
}

/// nf of a whole-register access, with its lumop or sumop and bit 25.
pub(crate) fn count_bits(count: RegisterCount) -> u64
    ensures value { result ≡ count_bits count }
    ensures small { result < 2 ^ 32 }
{
    match count {
        RegisterCount::One => 0x0280_0000,
        RegisterCount::Two => 0x2280_0000,
        RegisterCount::Four => 0x6280_0000,
        RegisterCount::Eight => 0xe280_0000,
    }
}

/// `vlm.v`, `vsm.v`.
pub(crate) fn mask_memory_bits(direction: Direction) -> u64
    ensures value { result ≡ mask_memory_bits direction }
    ensures small { result < 2 ^ 32 }
{
    match direction {
        Direction::Load => 0x02b0_0007,
        Direction::Store => 0x02b0_0027,
    }
}
