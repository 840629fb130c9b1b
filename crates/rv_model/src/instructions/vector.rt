//! Vector instructions that neither load nor store, by operand shape ("V" Vector Extension 1.0).
use crate::instructions::operands::{Field, Reg, VReg};
use crate::instructions::operations::{
    ExtendOp, MaskLogicOp, MaskToScalarOp, MaskUnaryOp, RegisterCount,
};
use crate::instructions::pairs::{Arith, Carry};
use crate::instructions::source::Source;

/// A vector instruction that neither loads nor stores: its operation, and each operand that its word encodes.
#[derive(Clone, Copy)]
pub enum VectorInstr {
    /// `vsetvli rd, rs1, vtype`.
    SetVli {
        rd: Reg,
        rs1: Reg,
        vtype: Field<11>,
    },
    /// `vsetivli rd, avl, vtype`.
    SetIvli {
        rd: Reg,
        avl: Field<5>,
        vtype: Field<10>,
    },
    /// `vsetvl rd, rs1, rs2`.
    SetVl {
        rd: Reg,
        rs1: Reg,
        rs2: Reg,
    },
    /// `vadd.vv vd, vs2, vs1, vm` and its variants. A set `vm` means unmasked, here and in the other variants.
    Arith {
        arith: Arith,
        vd: VReg,
        vs2: VReg,
        vm: bool,
    },
    /// `vadc.vvm vd, vs2, vs1, v0` and its variants.
    Carry {
        carry: Carry,
        vd: VReg,
        vs2: VReg,
    },
    /// `vmv.v.v vd, vs1`, `vmv.v.x vd, rs1`, `vmv.v.i vd, imm`.
    Move {
        source: Source,
        vd: VReg,
    },
    /// `vmv1r.v vd, vs2` to `vmv8r.v`.
    WholeMove {
        count: RegisterCount,
        vd: VReg,
        vs2: VReg,
    },
    /// `vmand.mm vd, vs2, vs1` and its variants.
    MaskLogic {
        op: MaskLogicOp,
        vd: VReg,
        vs1: VReg,
        vs2: VReg,
    },
    /// `vcompress.vm vd, vs2, vs1`.
    Compress {
        vd: VReg,
        vs1: VReg,
        vs2: VReg,
    },
    /// `vcpop.m rd, vs2, vm`, `vfirst.m`.
    MaskToScalar {
        op: MaskToScalarOp,
        rd: Reg,
        vs2: VReg,
        vm: bool,
    },
    /// `vzext.vf2 vd, vs2, vm` and its variants.
    Extend {
        op: ExtendOp,
        vd: VReg,
        vs2: VReg,
        vm: bool,
    },
    /// `vmsbf.m vd, vs2, vm`, `viota.m` and their variants.
    MaskUnary {
        op: MaskUnaryOp,
        vd: VReg,
        vs2: VReg,
        vm: bool,
    },
    /// `vid.v vd, vm`.
    ElementIndex {
        vd: VReg,
        vm: bool,
    },
    /// `vmv.x.s rd, vs2`.
    MoveToScalar {
        rd: Reg,
        vs2: VReg,
    },
    /// `vmv.s.x vd, rs1`.
    MoveToVector {
        vd: VReg,
        rs1: Reg,
    },
}
