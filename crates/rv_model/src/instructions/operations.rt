//! The operations of each operand shape, by their names in the manual.

/// `lui` and `auipc` (Unprivileged ISA, RV32I, "Integer Register-Immediate Instructions").
#[derive(Clone, Copy)]
pub enum UpperOp {
    Lui,
    Auipc,
}

/// Conditional branches (Unprivileged ISA, RV32I, "Conditional Branches").
#[derive(Clone, Copy)]
pub enum BranchOp {
    Beq,
    Bne,
    Blt,
    Bge,
    Bltu,
    Bgeu,
}

/// Loads to a scalar register (Unprivileged ISA, RV64I, "Load and Store Instructions").
#[derive(Clone, Copy)]
pub enum LoadOp {
    Lb,
    Lh,
    Lw,
    Ld,
    Lbu,
    Lhu,
    Lwu,
}

/// Stores of a scalar register (Unprivileged ISA, RV64I, "Load and Store Instructions").
#[derive(Clone, Copy)]
pub enum StoreOp {
    Sb,
    Sh,
    Sw,
    Sd,
}

/// Operations on a register and a 12-bit immediate (Unprivileged ISA, RV64I, "Integer
/// Register-Immediate Instructions").
#[derive(Clone, Copy)]
pub enum ImmediateOp {
    Addi,
    Slti,
    Sltiu,
    Xori,
    Ori,
    Andi,
    Addiw,
}

/// Shifts of 64 bits by an immediate (Unprivileged ISA, RV64I, "Integer Register-Immediate
/// Instructions").
#[derive(Clone, Copy)]
pub enum ShiftImmediateOp {
    Slli,
    Srli,
    Srai,
}

/// Shifts of the low 32 bits by an immediate (Unprivileged ISA, RV64I, "Integer
/// Register-Immediate Instructions").
#[derive(Clone, Copy)]
pub enum ShiftImmediateWordOp {
    Slliw,
    Srliw,
    Sraiw,
}

/// Operations on two registers (Unprivileged ISA, RV64I, "Integer Register-Register Operations",
/// and "M" Extension).
#[derive(Clone, Copy)]
pub enum RegisterOp {
    Add,
    Sub,
    Sll,
    Slt,
    Sltu,
    Xor,
    Srl,
    Sra,
    Or,
    And,
    Mul,
    Mulh,
    Mulhsu,
    Mulhu,
    Div,
    Divu,
    Rem,
    Remu,
    Addw,
    Subw,
    Sllw,
    Srlw,
    Sraw,
    Mulw,
    Divw,
    Divuw,
    Remw,
    Remuw,
}

/// Environment calls and breakpoints (Unprivileged ISA, RV32I, "Environment Call and Breakpoints").
#[derive(Clone, Copy)]
pub enum SystemOp {
    Ecall,
    Ebreak,
}

/// Accesses of a control register with a scalar register (Unprivileged ISA, "Zicsr").
#[derive(Clone, Copy)]
pub enum CsrOp {
    Csrrw,
    Csrrs,
    Csrrc,
}

/// Accesses of a control register with a 5-bit immediate (Unprivileged ISA, "Zicsr").
#[derive(Clone, Copy)]
pub enum CsrImmediateOp {
    Csrrwi,
    Csrrsi,
    Csrrci,
}

/// Integer operations whose result has the width of the operands (V extension, "Vector Integer
/// Arithmetic Instructions").
#[derive(Clone, Copy)]
pub enum BinaryOp {
    Vadd,
    Vsub,
    Vrsub,
    Vminu,
    Vmin,
    Vmaxu,
    Vmax,
    Vand,
    Vor,
    Vxor,
    Vsll,
    Vsrl,
    Vsra,
    Vdivu,
    Vdiv,
    Vremu,
    Vrem,
    Vmulhu,
    Vmul,
    Vmulhsu,
    Vmulh,
}

/// Carries of sums and borrows of differences, as masks (V extension, "Vector Integer Add-with-Carry /
/// Subtract-with-Borrow Instructions").
#[derive(Clone, Copy)]
pub enum CarryOutOp {
    Vmadc,
    Vmsbc,
}

/// Comparisons, whose result is a mask (V extension, "Vector Integer Compare Instructions").
#[derive(Clone, Copy)]
pub enum CompareOp {
    Vmseq,
    Vmsne,
    Vmsltu,
    Vmslt,
    Vmsleu,
    Vmsle,
    Vmsgtu,
    Vmsgt,
}

/// Saturating and rounding operations of a single width (V extension, "Vector Fixed-Point Arithmetic Instructions").
#[derive(Clone, Copy)]
pub enum FixedPointOp {
    Vsaddu,
    Vsadd,
    Vssubu,
    Vssub,
    Vsmul,
    Vssrl,
    Vssra,
    Vaaddu,
    Vaadd,
    Vasubu,
    Vasub,
}

/// Shifts of a source of twice the width (V extension, "Vector Narrowing Integer Right Shift
/// Instructions").
#[derive(Clone, Copy)]
pub enum NarrowShiftOp {
    Vnsrl,
    Vnsra,
}

/// Clips of a source of twice the width (V extension, "Vector Narrowing Fixed-Point Clip Instructions").
#[derive(Clone, Copy)]
pub enum ClipOp {
    Vnclipu,
    Vnclip,
}

/// Operations whose result has twice the width (V extension, "Vector Widening Integer Add/Subtract"
/// and "Vector Widening Integer Multiply Instructions").
#[derive(Clone, Copy)]
pub enum WidenOp {
    Vwaddu,
    Vwadd,
    Vwsubu,
    Vwsub,
    Vwmulu,
    Vwmulsu,
    Vwmul,
}

/// Operations whose result and first source have twice the width, such as `vwaddu.wv` (V extension, "Vector Widening
/// Integer Add/Subtract").
#[derive(Clone, Copy)]
pub enum WideSourceOp {
    Vwaddu,
    Vwadd,
    Vwsubu,
    Vwsub,
}

/// Products added to a third operand (V extension, "Vector Single-Width Integer Multiply-Add
/// Instructions").
#[derive(Clone, Copy)]
pub enum MultiplyAddOp {
    Vmadd,
    Vnmsub,
    Vmacc,
    Vnmsac,
}

/// Products of twice the width, added to a third operand (V extension, "Vector Widening Integer
/// Multiply-Add Instructions").
#[derive(Clone, Copy)]
pub enum WidenMultiplyAddOp {
    Vwmaccu,
    Vwmacc,
    Vwmaccus,
    Vwmaccsu,
}

/// Reductions to element 0 (V extension, "Vector Reduction Operations").
#[derive(Clone, Copy)]
pub enum ReduceOp {
    Vredsum,
    Vredand,
    Vredor,
    Vredxor,
    Vredminu,
    Vredmin,
    Vredmaxu,
    Vredmax,
}

/// Reductions to element 0 of twice the width (V extension, "Vector Widening Integer Reduction
/// Instructions").
#[derive(Clone, Copy)]
pub enum WidenReduceOp {
    Vwredsumu,
    Vwredsum,
}

/// Moves of elements to other indices (V extension, "Vector Permutation Instructions").
#[derive(Clone, Copy)]
pub enum PermuteOp {
    Vrgather,
    Vrgatherei16,
    Vslideup,
    Vslidedown,
    Vslide1up,
    Vslide1down,
}

/// An operation with its own row in the manual's table. Bit 25 of its word, `vm`, selects whether it is masked.
#[derive(Clone, Copy)]
pub enum VectorOp {
    Binary(BinaryOp),
    CarryOut(CarryOutOp),
    Compare(CompareOp),
    FixedPoint(FixedPointOp),
    NarrowShift(NarrowShiftOp),
    Clip(ClipOp),
    Widen(WidenOp),
    WideSource(WideSourceOp),
    MultiplyAdd(MultiplyAddOp),
    WidenMultiplyAdd(WidenMultiplyAddOp),
    Reduce(ReduceOp),
    WidenReduce(WidenReduceOp),
    Permute(PermuteOp),
}

/// Operations that take v0 as an operand and have no mask (V extension, "Vector Integer
/// Add-with-Carry / Subtract-with-Borrow Instructions" and "Vector Integer Merge Instructions").
#[derive(Clone, Copy)]
pub enum CarryOp {
    Vadc,
    Vsbc,
    Vmerge,
}

/// Logic on masks (V extension, "Vector Mask-Register Logical Instructions").
#[derive(Clone, Copy)]
pub enum MaskLogicOp {
    Vmandn,
    Vmand,
    Vmor,
    Vmxor,
    Vmorn,
    Vmnand,
    Vmnor,
    Vmxnor,
}

/// Counts and searches of set mask bits, with a scalar result (V extension, "Vector Mask Instructions").
#[derive(Clone, Copy)]
pub enum MaskToScalarOp {
    Vcpop,
    Vfirst,
}

/// Zero and sign extensions (V extension, "Vector Integer Extension").
#[derive(Clone, Copy)]
pub enum ExtendOp {
    VzextVf8,
    VsextVf8,
    VzextVf4,
    VsextVf4,
    VzextVf2,
    VsextVf2,
}

/// Masks of the elements before, up to or at a mask's first set bit (V extension, "vmsbf.m set-before-first mask bit"
/// and the sections after it).
#[derive(Clone, Copy)]
pub enum MaskScanOp {
    Vmsbf,
    Vmsof,
    Vmsif,
}

/// Operations on one mask, with a result in a vector register (V extension, "Vector Mask Instructions").
#[derive(Clone, Copy)]
pub enum MaskUnaryOp {
    Scan(MaskScanOp),
    Viota,
}

/// A half of the vector opcode map: OPIVV, OPIVX and OPIVI, or OPMVV and OPMVX (V extension,
/// "Vector Arithmetic Instruction encoding").
#[derive(Clone, Copy)]
pub enum Major {
    Opi,
    Opm,
}

/// Kind of the second operand of a vector operation: a vector register, a scalar register or an immediate.
#[derive(Clone, Copy)]
pub enum Form {
    V,
    X,
    I,
}

/// The operand forms that a row of the manual's table allows.
#[derive(Clone, Copy)]
pub enum Forms {
    V,
    X,
    Vx,
    Xi,
    Vxi,
}

/// A row of the manual's table of vector operations: the half of the opcode map, the six bits of funct6, and the
/// operand forms.
#[derive(Clone, Copy)]
pub struct Line {
    pub major: Major,
    pub funct6: u32,
    pub forms: Forms,
}

/// EEW: the width in bits of a memory element or of an index (V extension, "Vector Load/Store Width Encoding").
#[derive(Clone, Copy)]
pub enum Eew {
    E8,
    E16,
    E32,
    E64,
}

/// Unit-stride accesses (V extension, "Vector Unit-Stride Instructions" and "Unit-stride
/// Fault-Only-First Loads").
#[derive(Clone, Copy)]
pub enum UnitOp {
    Load,
    FaultOnlyFirst,
    Store,
}

/// Direction of a memory access: a read or a write.
#[derive(Clone, Copy)]
pub enum Direction {
    Load,
    Store,
}

/// The order of the accesses of an indexed instruction (V extension, "Vector Indexed Instructions").
#[derive(Clone, Copy)]
pub enum Order {
    Unordered,
    Ordered,
}

/// Number of registers that an instruction moves whole (V extension, "Vector Load/Store Whole Register Instructions"
/// and "Whole Vector Register Move").
#[derive(Clone, Copy)]
pub enum RegisterCount {
    One,
    Two,
    Four,
    Eight,
}
