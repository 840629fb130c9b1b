//! Classes of instructions for the counts.
ghost use Rattle.std.specs.Prelude.{◌≡◌};
ghost use Rattle.rv_model.specs.instructions.Table.{scan, table};
ghost use Rattle.rv_model.specs.elements.Bodies.{is_arith_unmasked};
ghost use Rattle.recording.specs.Classes.{access_class, class_of, is_link, links, operation_class};

use reg_groups::register_count;
use rv_decode::decode;
use rv_model::instructions::operations::{RegisterCount, VectorOp};
use rv_model::{AccessInstr, Arith, Instr, Reg, ScalarInstr, VLENB, VectorInstr};
use vector_memory::whole_length;

/// The class of an instruction, which selects its counts: by its elements, or as a jump.
#[derive(Clone, Copy)]
pub enum Class {
    /// No elements: a scalar instruction, or one that sets the vector length and type.
    Plain,
    /// A jump that links, or that returns through a link register.
    Link,
    /// Elements from vstart to vl, in a group of VLMAX elements; all are active if the instruction is unmasked.
    Length { unmasked: bool },
    /// A body other than the elements from vstart to vl; all its elements are active.
    Other { extent: Extent },
}

/// The body of an instruction whose elements don't end at vl ("V" Vector Extension 1.0, sections 7.4, 7.9, 16.1 and
/// 16.6).
#[derive(Clone, Copy)]
pub enum Extent {
    /// The bytes of a mask of vl bits, from byte vstart on.
    MaskBytes,
    /// The elements from vstart to `count`, independent of vl.
    Elements { count: u16 },
    /// The SEW elements in `count` registers, from vstart on, independent of vl.
    Registers { count: RegisterCount },
    /// Element 0, independent of vl and vstart (vmv.x.s).
    One,
    /// Element 0 if vstart is less than vl, otherwise no element (vmv.s.x).
    First,
}

/// Return whether a register is a link register: x1 and x5 are (Unprivileged ISA 20191213, section 2.5).
fn is_link(register: Reg) -> bool
    ensures { result ≡ is_link register }
{
    register.number() == 1 || register.number() == 5
}

/// Return whether an instruction is a jump that links, or that returns through a link register.
fn links(instr: &ScalarInstr) -> bool
    ensures { result ≡ links instr.now }
{
    match instr {
        ScalarInstr::Jump { rd, .. } => is_link(*rd),
        ScalarInstr::JumpRegister { rd, rs1, .. } => is_link(*rd) || is_link(*rs1),
        _ => false,
    }
}

/// Return whether all body elements of an arithmetic operation are active. They always are for vmadc and vmsbc, whose
/// vm selects v0 as an operand.
fn is_arith_unmasked(arith: Arith, vm: bool) -> bool
    ensures { result ≡ is_arith_unmasked arith.0 vm }
{
    match arith.parts() {
        (VectorOp::CarryOut(_), _) => true,
        _ => vm,
    }
}

/// Return the class of a vector operation that neither loads nor stores.
fn operation_class(instr: &VectorInstr) -> Class
    ensures { result ≡ operation_class instr.now }
{
    match instr {
        VectorInstr::SetVli { .. } | VectorInstr::SetIvli { .. } | VectorInstr::SetVl { .. } => {
            Class::Plain
        }
        VectorInstr::Arith { arith, vm, .. } => Class::Length {
            unmasked: is_arith_unmasked(*arith, *vm),
        },
        VectorInstr::MaskToScalar { vm, .. }
        | VectorInstr::Extend { vm, .. }
        | VectorInstr::MaskUnary { vm, .. }
        | VectorInstr::ElementIndex { vm, .. } => Class::Length { unmasked: *vm },
        VectorInstr::WholeMove { count, .. } => Class::Other {
            extent: Extent::Registers { count: *count },
        },
        VectorInstr::MoveToScalar { .. } => Class::Other {
            extent: Extent::One,
        },
        VectorInstr::MoveToVector { .. } => Class::Other {
            extent: Extent::First,
        },
        VectorInstr::Carry { .. }
        | VectorInstr::Move { .. }
        | VectorInstr::MaskLogic { .. }
        | VectorInstr::Compress { .. } => Class::Length { unmasked: true },
    }
}

/// Return the class of a vector load or store, whose elements are its segments.
#[tactic(auto, using(crate::proofs::Lengths::whole_length_below))]
fn access_class(instr: &AccessInstr) -> Class
    ensures { result ≡ access_class instr.now }
{
    match instr {
        AccessInstr::UnitStride { vm, .. }
        | AccessInstr::Strided { vm, .. }
        | AccessInstr::Indexed { vm, .. } => Class::Length { unmasked: *vm },
        AccessInstr::WholeLoad { count, width, .. } => Class::Other {
            extent: Extent::Elements {
                count: whole_length(*count, *width) as u16,
            },
        },
        AccessInstr::WholeStore { count, .. } => Class::Other {
            extent: Extent::Elements {
                count: u16::from(register_count(*count)) * VLENB as u16,
            },
        },
        AccessInstr::MaskAccess { .. } => Class::Other {
            extent: Extent::MaskBytes,
        },
    }
}

/// Return the class of a word's instruction, or `Plain` if the word isn't an instruction.
pub(crate) fn class_of(word: u32) -> Class
    ensures { result ≡ class_of (scan table word) }
{
    match decode(word) {
        Some(Instr::Scalar(instr)) => {
            if links(&instr) {
                Class::Link
            } else {
                Class::Plain
            }
        }
        Some(Instr::Vector(instr)) => operation_class(&instr),
        Some(Instr::Access(instr)) => access_class(&instr),
        Some(Instr::Csr(_)) | None => Class::Plain,
    }
}
