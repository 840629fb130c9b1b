//! Encoding of operands: each function returns the bits of operands at their position in an instruction's 32-bit
//! word.
ghost use Rattle.std.specs.Prelude.{◌≡◌, ◌<◌, ◌*◌, ◌+◌, ◌/◌, ◌%◌, ◌^◌};
ghost use Rattle.rv_model.specs.instructions.FixedBits.{flag_bit, sum_of};
ghost use Rattle.rv_model.specs.lending.ListedBits.{AllFit};
ghost use Rattle.rv_model.specs.instructions.Operations.{source_number};
ghost use Rattle.rv_model.specs.instructions.Table.{parts};

use rv_model::{AccessInstr, CsrInstr, Field, Instr, Reg, ScalarInstr, Source, VReg, VectorInstr};

/// The number of a scalar register, shifted to bit `low`.
fn reg(register: Reg, low: u32) -> u64
    requires { low < 32 }
    ensures value { result ≡ register * 2 ^ low }
    ensures small { result < 2 ^ 40 }
    ensures fit { register < 2 ^ 5 }
{
    u64::from(register.number()) << low
}

/// The number of a vector register, shifted to bit `low`.
fn vreg(register: VReg, low: u32) -> u64
    requires { low < 32 }
    ensures value { result ≡ register * 2 ^ low }
    ensures small { result < 2 ^ 40 }
    ensures fit { register < 2 ^ 5 }
{
    u64::from(register.number()) << low
}

/// The value of a field, shifted to bit `low`.
fn put<const BITS: u32>(field: Field<BITS>, low: u32) -> u64
    requires { low < 32 }
    ensures value { result ≡ field.entry * 2 ^ low }
    ensures fit { field.entry < 2 ^ BITS }
{
    u64::from(field.value()) << low
}

/// The vm bit, bit 25, which is 1 for an unmasked vector instruction.
fn unmasked(vm: bool) -> u64
    ensures value { result ≡ flag_bit vm * 2 ^ 25 }
    ensures small { result < 2 ^ 40 }
    ensures fit { flag_bit vm < 2 ^ 1 }
{
    if vm { 1 << 25 } else { 0 }
}

/// The immediate of a store, split into its two parts: bits 7 and 25 of the word are their lowest bits.
fn store_part(imm: Field<12>) -> u64
    ensures value { result ≡ imm % 2 ^ 5 * 2 ^ 7 + imm / 2 ^ 5 * 2 ^ 25 }
    ensures fit { imm < 2 ^ 12 }
    ensures small { result < 2 ^ 40 }
{
    let bits = u64::from(imm.value());
    ((bits % 32) << 7) + ((bits / 32) << 25)
}

/// Bits 12 to 1 of the offset of a branch, split into the four parts of the B-type format.
fn branch_part(imm: Field<12>) -> u64
    ensures value { result
        ≡ imm / 2 ^ 10 % 2 ^ 1 * 2 ^ 7 + imm % 2 ^ 4 * 2 ^ 8
        + imm / 2 ^ 4 % 2 ^ 6 * 2 ^ 25 + imm / 2 ^ 11 * 2 ^ 31 }
    ensures fit { imm < 2 ^ 12 }
    ensures small { result < 2 ^ 40 }
{
    let bits = u64::from(imm.value());
    ((bits / 1024 % 2) << 7) + ((bits % 16) << 8) + ((bits / 16 % 64) << 25) + ((bits / 2048) << 31)
}

/// Bits 20 to 1 of the offset of a jump, split into the four parts of the J-type format.
fn jump_part(imm: Field<20>) -> u64
    ensures value { result
        ≡ imm / 2 ^ 11 % 2 ^ 8 * 2 ^ 12 + imm / 2 ^ 10 % 2 ^ 1 * 2 ^ 20
        + imm % 2 ^ 10 * 2 ^ 21 + imm / 2 ^ 19 * 2 ^ 31 }
    ensures fit { imm < 2 ^ 20 }
    ensures small { result < 2 ^ 40 }
{
    let bits = u64::from(imm.value());
    ((bits / 2048 % 256) << 12)
        + ((bits / 1024 % 2) << 20)
        + ((bits % 1024) << 21)
        + ((bits / 524_288) << 31)
}

/// The second operand of a vector operation, at bit 15.
fn source_part(source: &Source) -> u64
    ensures value { result ≡ source_number source.now * 2 ^ 15 }
    ensures fit { source_number source.now < 2 ^ 5 }
{
    match *source {
        Source::V(register) => vreg(register, 15),
        Source::X(register) => reg(register, 15),
        Source::I(imm) => put(imm, 15),
    }
}

/// The operands of a scalar instruction, each at its position.
fn scalar_operands(instr: &ScalarInstr) -> u64
    ensures value { result ≡ sum_of 0 (parts (Instr.Scalar instr.now)) }
    ensures fit { AllFit (parts (Instr.Scalar instr.now)) }
    ensures small { result < 2 ^ 61 }
{
    match *instr {
        ScalarInstr::Upper { rd, imm, .. } => reg(rd, 7) + put(imm, 12),
        ScalarInstr::Jump { rd, imm } => reg(rd, 7) + jump_part(imm),
        ScalarInstr::JumpRegister { rd, rs1, imm } => reg(rd, 7) + reg(rs1, 15) + put(imm, 20),
        ScalarInstr::Branch { rs1, rs2, imm, .. } => reg(rs1, 15) + reg(rs2, 20) + branch_part(imm),
        ScalarInstr::Load { rd, rs1, imm, .. } => reg(rd, 7) + reg(rs1, 15) + put(imm, 20),
        ScalarInstr::Store { rs1, rs2, imm, .. } => reg(rs1, 15) + reg(rs2, 20) + store_part(imm),
        ScalarInstr::RegisterImmediate { rd, rs1, imm, .. } => reg(rd, 7)
            + reg(rs1, 15)
            + put(imm, 20),
        ScalarInstr::ShiftImmediate { rd, rs1, shamt, .. } => reg(rd, 7)
            + reg(rs1, 15)
            + put(shamt, 20),
        ScalarInstr::ShiftImmediateWord { rd, rs1, shamt, .. } => reg(rd, 7)
            + reg(rs1, 15)
            + put(shamt, 20),
        ScalarInstr::RegisterRegister { rd, rs1, rs2, .. } => reg(rd, 7)
            + reg(rs1, 15)
            + reg(rs2, 20),
        ScalarInstr::Fence { rd, rs1, ordering } => reg(rd, 7) + reg(rs1, 15) + put(ordering, 20),
        ScalarInstr::System { .. } => 0,
    }
}

/// The operands of an instruction that accesses a control register, each at its position.
fn csr_operands(instr: &CsrInstr) -> u64
    ensures value { result ≡ sum_of 0 (parts (Instr.Csr instr.now)) }
    ensures fit { AllFit (parts (Instr.Csr instr.now)) }
    ensures small { result < 2 ^ 61 }
{
    match *instr {
        CsrInstr::Register { rd, rs1, csr, .. } => reg(rd, 7) + reg(rs1, 15) + put(csr, 20),
        CsrInstr::Immediate { rd, imm, csr, .. } => reg(rd, 7) + put(imm, 15) + put(csr, 20),
    }
}

/// The operands of a vector instruction other than a load or store, each at its position.
fn vector_operands(instr: &VectorInstr) -> u64
    ensures value { result ≡ sum_of 0 (parts (Instr.Vector instr.now)) }
    ensures fit { AllFit (parts (Instr.Vector instr.now)) }
    ensures small { result < 2 ^ 61 }
{
    match *instr {
        VectorInstr::SetVli { rd, rs1, vtype } => reg(rd, 7) + reg(rs1, 15) + put(vtype, 20),
        VectorInstr::SetIvli { rd, avl, vtype } => reg(rd, 7) + put(avl, 15) + put(vtype, 20),
        VectorInstr::SetVl { rd, rs1, rs2 } => reg(rd, 7) + reg(rs1, 15) + reg(rs2, 20),
        VectorInstr::Arith { arith, vd, vs2, vm } => source_part(&arith.parts().1)
            + vreg(vd, 7)
            + vreg(vs2, 20)
            + unmasked(vm),
        VectorInstr::Carry { carry, vd, vs2 } => source_part(&carry.parts().1)
            + vreg(vd, 7)
            + vreg(vs2, 20),
        VectorInstr::Move { source, vd } => source_part(&source) + vreg(vd, 7),
        VectorInstr::WholeMove { vd, vs2, .. } => vreg(vd, 7) + vreg(vs2, 20),
        VectorInstr::MaskLogic { vd, vs1, vs2, .. } => vreg(vd, 7) + vreg(vs1, 15) + vreg(vs2, 20),
        VectorInstr::Compress { vd, vs1, vs2 } => vreg(vd, 7) + vreg(vs1, 15) + vreg(vs2, 20),
        VectorInstr::MaskToScalar { rd, vs2, vm, .. } => reg(rd, 7) + vreg(vs2, 20) + unmasked(vm),
        VectorInstr::Extend { vd, vs2, vm, .. } => vreg(vd, 7) + vreg(vs2, 20) + unmasked(vm),
        VectorInstr::MaskUnary { vd, vs2, vm, .. } => vreg(vd, 7) + vreg(vs2, 20) + unmasked(vm),
        VectorInstr::ElementIndex { vd, vm } => vreg(vd, 7) + unmasked(vm),
        VectorInstr::MoveToScalar { rd, vs2 } => reg(rd, 7) + vreg(vs2, 20),
        VectorInstr::MoveToVector { vd, rs1 } => vreg(vd, 7) + reg(rs1, 15),
    }
}

/// The operands of a vector load or store, each at its position.
fn access_operands(instr: &AccessInstr) -> u64
    ensures value { result ≡ sum_of 0 (parts (Instr.Access instr.now)) }
    ensures fit { AllFit (parts (Instr.Access instr.now)) }
    ensures small { result < 2 ^ 61 }
{
    match *instr {
        AccessInstr::UnitStride {
            nf,
            vd,
            rs1,
            vm,
            ..
        } => put(nf, 29) + vreg(vd, 7) + reg(rs1, 15) + unmasked(vm),
        AccessInstr::Strided {
            nf,
            vd,
            rs1,
            rs2,
            vm,
            ..
        } => put(nf, 29) + vreg(vd, 7) + reg(rs1, 15) + reg(rs2, 20) + unmasked(vm),
        AccessInstr::Indexed {
            nf,
            vd,
            rs1,
            vs2,
            vm,
            ..
        } => put(nf, 29) + vreg(vd, 7) + reg(rs1, 15) + vreg(vs2, 20) + unmasked(vm),
        AccessInstr::WholeLoad { vd, rs1, .. } => vreg(vd, 7) + reg(rs1, 15),
        AccessInstr::WholeStore { vd, rs1, .. } => vreg(vd, 7) + reg(rs1, 15),
        AccessInstr::MaskAccess { vd, rs1, .. } => vreg(vd, 7) + reg(rs1, 15),
    }
}

/// The operands of an instruction, each at its position.
pub(crate) fn operands(instr: &Instr) -> u64
    ensures value { result ≡ sum_of 0 (parts instr.now) }
    ensures fit { AllFit (parts instr.now) }
    ensures small { result < 2 ^ 61 }
{
    match instr {
        Instr::Scalar(instr) => scalar_operands(instr),
        Instr::Csr(instr) => csr_operands(instr),
        Instr::Vector(instr) => vector_operands(instr),
        Instr::Access(instr) => access_operands(instr),
    }
}
