//! The slots of an instruction's text, and the forms of texts, which are lists of slots.

/// Position of a register number in a word: `Rd` is bits 11 to 7, `Rs1` 19 to 15, `Rs2` 24 to 20.
#[derive(Clone, Copy)]
pub enum Place {
    Rd,
    Rs1,
    Rs2,
}

/// An unsigned number, by its position in a word.
#[derive(Clone, Copy)]
pub enum UnsignedField {
    /// 5 bits, in the field of rs1.
    Immediate,
    /// The amount of a 64-bit shift: bits 25 to 20.
    Shift,
    /// The amount of a 32-bit shift: bits 24 to 20.
    ShiftWord,
    /// Bits 31 to 12.
    Upper,
}

/// A signed number, by its position in a word.
#[derive(Clone, Copy)]
pub enum SignedField {
    /// 5 bits, in the field of rs1.
    Vector,
    /// The 12 bits of the I format.
    Immediate,
    /// The 12 bits of the S format.
    Store,
    /// An even 13-bit distance in bytes, in the B format.
    Branch,
    /// An even 21-bit distance in bytes, in the J format.
    Jump,
}

/// A slot of an instruction's text, filled by one or more tokens; `Mask` may be empty.
#[derive(Clone, Copy)]
pub enum Slot {
    /// `,`
    Comma,
    /// `(`
    Open,
    /// `)`
    Close,
    /// `v0`, the mask as an operand.
    V0,
    /// `x0` to `x31`.
    Scalar(Place),
    /// `v0` to `v31`.
    Vector(Place),
    Unsigned(UnsignedField),
    Signed(SignedField),
    /// A control register, as a name or a 12-bit number.
    Csr,
    /// vtype, as the names of its fields or as an 11-bit number.
    VectorType,
    /// vtype, as the names of its fields or as a 10-bit number.
    ShortVectorType,
    /// `, v0.t` or nothing: bit 25, which is clear if the instruction is masked.
    Mask,
    /// A whole 32-bit word.
    Word,
}

/// Kind of a vector operation's last source, in the field of rs1.
#[derive(Clone, Copy)]
pub enum SourceKind {
    /// `v0` to `v31`.
    Vector,
    /// `x0` to `x31`.
    Scalar,
    /// A signed 5-bit number.
    Immediate,
}

/// A form of instruction texts, named after its instructions.
#[derive(Clone, Copy)]
pub enum Form {
    /// `ecall`
    Plain,
    /// `add rd, rs1, rs2`
    Register,
    /// `addi rd, rs1, n`
    Immediate,
    /// `slli rd, rs1, n`
    Shift,
    /// `slliw rd, rs1, n`
    ShiftWord,
    /// `ld rd, n(rs1)`
    Load,
    /// `sd rs2, n(rs1)`
    Store,
    /// `beq rs1, rs2, n`
    Branch,
    /// `jal rd, n`
    Jump,
    /// `lui rd, n`
    Upper,
    /// `csrrw rd, csr, rs1`
    Csr,
    /// `csrrwi rd, csr, n`
    CsrImmediate,
    /// `vsetvli rd, rs1, vtype`
    SetVli,
    /// `vsetivli rd, n, vtype`
    SetIvli,
    /// `vadd.vv vd, vs2, vs1`, which may be masked
    VectorVector,
    /// `vadd.vx vd, vs2, rs1`, which may be masked
    VectorScalar,
    /// `vadd.vi vd, vs2, n` with a signed number, which may be masked
    VectorImmediate,
    /// `vsll.vi vd, vs2, n` with an unsigned number, which may be masked
    VectorUnsigned,
    /// `vmacc.vv vd, vs1, vs2`, which may be masked
    MultiplyAddVector,
    /// `vmacc.vx vd, rs1, vs2`, which may be masked
    MultiplyAddScalar,
    /// `vadc.vvm vd, vs2, vs1, v0`, `vadc.vxm vd, vs2, rs1, v0`, `vadc.vim vd, vs2, n, v0`
    Carry(SourceKind),
    /// `vmand.mm vd, vs2, vs1`, `vmadc.vx vd, vs2, rs1`, `vmadc.vi vd, vs2, n`
    Unmasked(SourceKind),
    /// `vmv.v.v vd, vs1`, `vmv.v.x vd, rs1`, `vmv.v.i vd, n`
    Move(SourceKind),
    /// `vmv.x.s rd, vs2`
    MoveToScalar,
    /// `vmv1r.v vd, vs2`
    WholeMove,
    /// `vcpop.m rd, vs2`, which may be masked
    MaskToScalar,
    /// `vzext.vf2 vd, vs2`, which may be masked
    VectorUnary,
    /// `vid.v vd`, which may be masked
    ElementIndex,
    /// `vle32.v vd, (rs1)`, which may be masked
    Unit,
    /// `vlm.v vd, (rs1)`
    UnmaskedUnit,
    /// `vlse32.v vd, (rs1), rs2`, which may be masked
    Strided,
    /// `vluxei32.v vd, (rs1), vs2`, which may be masked
    Indexed,
    /// `.word n`
    Word,
}

const RD: Slot = Slot::Scalar(Place::Rd);

const RS1: Slot = Slot::Scalar(Place::Rs1);

const RS2: Slot = Slot::Scalar(Place::Rs2);

const VD: Slot = Slot::Vector(Place::Rd);

const VS1: Slot = Slot::Vector(Place::Rs1);

const VS2: Slot = Slot::Vector(Place::Rs2);

const UNSIGNED5: Slot = Slot::Unsigned(UnsignedField::Immediate);

const SHIFT6: Slot = Slot::Unsigned(UnsignedField::Shift);

const SHIFT5: Slot = Slot::Unsigned(UnsignedField::ShiftWord);

const UPPER20: Slot = Slot::Unsigned(UnsignedField::Upper);

const SIGNED5: Slot = Slot::Signed(SignedField::Vector);

const IMMEDIATE12: Slot = Slot::Signed(SignedField::Immediate);

const STORE_OFFSET: Slot = Slot::Signed(SignedField::Store);

const BRANCH_OFFSET: Slot = Slot::Signed(SignedField::Branch);

const JUMP_OFFSET: Slot = Slot::Signed(SignedField::Jump);

/// The slots of the form `Plain`.
pub const PLAIN: [Slot; 0] = [];
/// The slots of the form `Register`.
pub const REGISTER: [Slot; 5] = [RD, Slot::Comma, RS1, Slot::Comma, RS2];
/// The slots of the form `Immediate`.
pub const IMMEDIATE: [Slot; 5] = [RD, Slot::Comma, RS1, Slot::Comma, IMMEDIATE12];
/// The slots of the form `Shift`.
pub const SHIFT: [Slot; 5] = [RD, Slot::Comma, RS1, Slot::Comma, SHIFT6];
/// The slots of the form `ShiftWord`.
pub const SHIFT_WORD: [Slot; 5] = [RD, Slot::Comma, RS1, Slot::Comma, SHIFT5];
/// The slots of the form `Load`.
pub const LOAD: [Slot; 6] = [RD, Slot::Comma, IMMEDIATE12, Slot::Open, RS1, Slot::Close];
/// The slots of the form `Store`.
pub const STORE: [Slot; 6] = [RS2, Slot::Comma, STORE_OFFSET, Slot::Open, RS1, Slot::Close];
/// The slots of the form `Branch`.
pub const BRANCH: [Slot; 5] = [RS1, Slot::Comma, RS2, Slot::Comma, BRANCH_OFFSET];
/// The slots of the form `Jump`.
pub const JUMP: [Slot; 3] = [RD, Slot::Comma, JUMP_OFFSET];
/// The slots of the form `Upper`.
pub const UPPER: [Slot; 3] = [RD, Slot::Comma, UPPER20];
/// The slots of the form `Csr`.
pub const CSR: [Slot; 5] = [RD, Slot::Comma, Slot::Csr, Slot::Comma, RS1];
/// The slots of the form `CsrImmediate`.
pub const CSR_IMMEDIATE: [Slot; 5] = [RD, Slot::Comma, Slot::Csr, Slot::Comma, UNSIGNED5];
/// The slots of the form `SetVli`.
pub const SET_VLI: [Slot; 5] = [RD, Slot::Comma, RS1, Slot::Comma, Slot::VectorType];
/// The slots of the form `SetIvli`.
pub const SET_IVLI: [Slot; 5] = [
    RD,
    Slot::Comma,
    UNSIGNED5,
    Slot::Comma,
    Slot::ShortVectorType,
];
/// The slots of the form `VectorVector`.
pub const VECTOR_VECTOR: [Slot; 6] = [VD, Slot::Comma, VS2, Slot::Comma, VS1, Slot::Mask];
/// The slots of the form `VectorScalar`.
pub const VECTOR_SCALAR: [Slot; 6] = [VD, Slot::Comma, VS2, Slot::Comma, RS1, Slot::Mask];
/// The slots of the form `VectorImmediate`.
pub const VECTOR_IMMEDIATE: [Slot; 6] = [VD, Slot::Comma, VS2, Slot::Comma, SIGNED5, Slot::Mask];
/// The slots of the form `VectorUnsigned`.
pub const VECTOR_UNSIGNED: [Slot; 6] = [VD, Slot::Comma, VS2, Slot::Comma, UNSIGNED5, Slot::Mask];
/// The slots of the form `MultiplyAddVector`.
pub const MULTIPLY_ADD_VECTOR: [Slot; 6] = [VD, Slot::Comma, VS1, Slot::Comma, VS2, Slot::Mask];
/// The slots of the form `MultiplyAddScalar`.
pub const MULTIPLY_ADD_SCALAR: [Slot; 6] = [VD, Slot::Comma, RS1, Slot::Comma, VS2, Slot::Mask];
/// The slots of the form `Carry` with a source of the kind `Vector`.
pub const CARRY_VECTOR: [Slot; 7] = [
    VD,
    Slot::Comma,
    VS2,
    Slot::Comma,
    VS1,
    Slot::Comma,
    Slot::V0,
];
/// The slots of the form `Carry` with a source of the kind `Scalar`.
pub const CARRY_SCALAR: [Slot; 7] = [
    VD,
    Slot::Comma,
    VS2,
    Slot::Comma,
    RS1,
    Slot::Comma,
    Slot::V0,
];
/// The slots of the form `Carry` with a source of the kind `Immediate`.
pub const CARRY_IMMEDIATE: [Slot; 7] = [
    VD,
    Slot::Comma,
    VS2,
    Slot::Comma,
    SIGNED5,
    Slot::Comma,
    Slot::V0,
];
/// The slots of the form `Unmasked` with a source of the kind `Vector`.
pub const UNMASKED_VECTOR: [Slot; 5] = [VD, Slot::Comma, VS2, Slot::Comma, VS1];
/// The slots of the form `Unmasked` with a source of the kind `Scalar`.
pub const UNMASKED_SCALAR: [Slot; 5] = [VD, Slot::Comma, VS2, Slot::Comma, RS1];
/// The slots of the form `Unmasked` with a source of the kind `Immediate`.
pub const UNMASKED_IMMEDIATE: [Slot; 5] = [VD, Slot::Comma, VS2, Slot::Comma, SIGNED5];
/// The slots of the form `Move` with a source of the kind `Vector`.
pub const MOVE_VECTOR: [Slot; 3] = [VD, Slot::Comma, VS1];
/// The slots of the form `Move` with a source of the kind `Scalar`.
pub const MOVE_SCALAR: [Slot; 3] = [VD, Slot::Comma, RS1];
/// The slots of the form `Move` with a source of the kind `Immediate`.
pub const MOVE_IMMEDIATE: [Slot; 3] = [VD, Slot::Comma, SIGNED5];
/// The slots of the form `MoveToScalar`.
pub const MOVE_TO_SCALAR: [Slot; 3] = [RD, Slot::Comma, VS2];
/// The slots of the form `WholeMove`.
pub const WHOLE_MOVE: [Slot; 3] = [VD, Slot::Comma, VS2];
/// The slots of the form `MaskToScalar`.
pub const MASK_TO_SCALAR: [Slot; 4] = [RD, Slot::Comma, VS2, Slot::Mask];
/// The slots of the form `VectorUnary`.
pub const VECTOR_UNARY: [Slot; 4] = [VD, Slot::Comma, VS2, Slot::Mask];
/// The slots of the form `ElementIndex`.
pub const ELEMENT_INDEX: [Slot; 2] = [VD, Slot::Mask];
/// The slots of the form `Unit`.
pub const UNIT: [Slot; 6] = [VD, Slot::Comma, Slot::Open, RS1, Slot::Close, Slot::Mask];
/// The slots of the form `UnmaskedUnit`.
pub const UNMASKED_UNIT: [Slot; 5] = [VD, Slot::Comma, Slot::Open, RS1, Slot::Close];
/// The slots of the form `Strided`.
pub const STRIDED: [Slot; 8] = [
    VD,
    Slot::Comma,
    Slot::Open,
    RS1,
    Slot::Close,
    Slot::Comma,
    RS2,
    Slot::Mask,
];
/// The slots of the form `Indexed`.
pub const INDEXED: [Slot; 8] = [
    VD,
    Slot::Comma,
    Slot::Open,
    RS1,
    Slot::Close,
    Slot::Comma,
    VS2,
    Slot::Mask,
];
/// The slots of the form `Word`.
pub const WORD: [Slot; 1] = [Slot::Word];
