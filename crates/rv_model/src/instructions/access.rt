//! Vector loads and stores, by operand shape ("V" Vector Extension 1.0, chapter 7).
use crate::instructions::operands::{Field, Reg, VReg};
use crate::instructions::operations::{Direction, Eew, Order, RegisterCount, UnitOp};

/// A vector load or store: its operation, and each operand that its word encodes.
#[derive(Clone, Copy)]
pub enum AccessInstr {
    /// `vle32.v vd, (rs1), vm`, `vle32ff.v`, `vse32.v` and their segment forms; `nf` is one less than
    /// the number of fields, as in each variant.
    UnitStride {
        op: UnitOp,
        width: Eew,
        nf: Field<3>,
        vd: VReg,
        rs1: Reg,
        vm: bool,
    },
    /// `vlse32.v vd, (rs1), rs2, vm`, `vsse32.v` and their segment forms.
    Strided {
        direction: Direction,
        width: Eew,
        nf: Field<3>,
        vd: VReg,
        rs1: Reg,
        rs2: Reg,
        vm: bool,
    },
    /// `vluxei32.v vd, (rs1), vs2, vm`, its variants, and their segment forms; `width` is that of an index.
    Indexed {
        direction: Direction,
        order: Order,
        width: Eew,
        nf: Field<3>,
        vd: VReg,
        rs1: Reg,
        vs2: VReg,
        vm: bool,
    },
    /// `vl1re32.v vd, (rs1)` and its variants.
    WholeLoad {
        count: RegisterCount,
        width: Eew,
        vd: VReg,
        rs1: Reg,
    },
    /// `vs1r.v vd, (rs1)` and its variants.
    WholeStore {
        count: RegisterCount,
        vd: VReg,
        rs1: Reg,
    },
    /// `vlm.v vd, (rs1)`, `vsm.v`.
    MaskAccess {
        direction: Direction,
        vd: VReg,
        rs1: Reg,
    },
}
