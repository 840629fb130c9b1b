//! Decoding of vector instructions on registers, with a function for each layout of operands.
#![tactic(auto, unfolding(rv_model::specs::instructions::Table::scan, rv_model::specs::lending::Families::rows))]

ghost use Rattle.std.specs.Prelude.{◌≡◌, IfSome, bit_and, option_map, true};
ghost use Rattle.rv_model.specs.lending.OtherOperations.{is_other_operation};
ghost use Rattle.rv_model.specs.instructions.Operations.{major_bits};
ghost use Rattle.rv_model.specs.instructions.Table.{scan};
ghost use Rattle.rv_model.specs.lending.Families.{rows, SetVlis, SetIvlis, SetVls, WholeMoves, MaskLogics, Compresses};
ghost use Rattle.rv_model.specs.lending.Families.{MasksToScalar, Extends, MaskUnaries, ElementIndices, MovesToScalar};
ghost use Rattle.rv_model.specs.lending.Families.{MovesToVector, Ariths, Carries, Moves};

use crate::vector_operations::{
    carry_op, extend_op, mask_logic_op, mask_to_scalar_op, mask_unary_op, opi, opm, whole_move_op,
};
use crate::word_fields::{is_unmasked, reg, source, vreg};
use rv_model::instructions::bits;
use rv_model::instructions::operations::{Form, Major};
use rv_model::{Arith, ArithOperation, Carry, Field, Instr, VectorInstr};

/// Decode an operation of the funct6 table, masked or unmasked.
#[tactic(auto, using(crate::proofs::Scan::scan_arith, rv_model::proofs::instruction_lemmas::Words::form_source_of))]
#[inline(always)]
pub(crate) fn arith(word: u32, major: Major, form: Form) -> Option<ArithOperation>
    requires { bit_and word 0x707f ≡ major_bits major form }
    ensures { option_map (λ o. Instr.Vector (VectorInstr.Arith o.arith o.vd o.vs2 o.unmasked)) result
        ≡ scan (rows (Ariths major form)) word }
{
    let op = match major {
        Major::Opi => opi(word >> 26, form)?,
        Major::Opm => opm(word >> 26, form)?,
    };
    Some(ArithOperation {
        arith: Arith::new(op, source(word, form)),
        vd: vreg(word, 7),
        vs2: vreg(word, 20),
        unmasked: is_unmasked(word),
    })
}

/// Decode an operation with v0 as an operand.
#[tactic(auto, using(crate::proofs::Scan::scan_carry, rv_model::proofs::instruction_lemmas::Words::form_source_of))]
pub(crate) fn carry(word: u32, form: Form) -> Option<VectorInstr>
    ensures row { option_map Instr.Vector result ≡ scan (rows (Carries form)) word }
    ensures group { IfSome result (λ i. is_other_operation i ≡ true) }
{
    let op = carry_op(word & 0xfe00_707f, form)?;
    Some(VectorInstr::Carry {
        carry: Carry::new(op, source(word, form)),
        vd: vreg(word, 7),
        vs2: vreg(word, 20),
    })
}

/// Decode `vmv.v.v`, `vmv.v.x` or `vmv.v.i`, whose vs2 is 0.
pub(crate) fn vector_move(word: u32, form: Form) -> Option<VectorInstr>
    ensures row { option_map Instr.Vector result ≡ scan (rows (Moves form)) word }
    ensures group { IfSome result (λ i. is_other_operation i ≡ true) }
{
    let code = match form {
        Form::V => 0x5e00_0057,
        Form::X => 0x5e00_4057,
        Form::I => 0x5e00_3057,
    };
    if word & 0xfff0_707f == code {
        Some(VectorInstr::Move {
            source: source(word, form),
            vd: vreg(word, 7),
        })
    } else {
        None
    }
}

/// Decode `vsetvli`.
pub(crate) fn set_vli(word: u32) -> Option<VectorInstr>
    ensures row { option_map Instr.Vector result ≡ scan (rows SetVlis) word }
    ensures group { IfSome result (λ i. is_other_operation i ≡ true) }
{
    if word & 0x8000_707f == 0x0000_7057 {
        Some(VectorInstr::SetVli {
            rd: reg(word, 7),
            rs1: reg(word, 15),
            vtype: Field::new(bits(word, 20, 11)),
        })
    } else {
        None
    }
}

/// Decode `vsetivli`.
pub(crate) fn set_ivli(word: u32) -> Option<VectorInstr>
    ensures row { option_map Instr.Vector result ≡ scan (rows SetIvlis) word }
    ensures group { IfSome result (λ i. is_other_operation i ≡ true) }
{
    if word & 0xc000_707f == 0xc000_7057 {
        Some(VectorInstr::SetIvli {
            rd: reg(word, 7),
            avl: Field::new(bits(word, 15, 5)),
            vtype: Field::new(bits(word, 20, 10)),
        })
    } else {
        None
    }
}

/// Decode `vsetvl`.
pub(crate) fn set_vl(word: u32) -> Option<VectorInstr>
    ensures row { option_map Instr.Vector result ≡ scan (rows SetVls) word }
    ensures group { IfSome result (λ i. is_other_operation i ≡ true) }
{
    if word & 0xfe00_707f == 0x8000_7057 {
        Some(VectorInstr::SetVl {
            rd: reg(word, 7),
            rs1: reg(word, 15),
            rs2: reg(word, 20),
        })
    } else {
        None
    }
}

/// Decode `vmv1r.v` to `vmv8r.v`.
#[tactic(auto, using(crate::proofs::Scan::scan_whole_move))]
pub(crate) fn whole_move(word: u32) -> Option<VectorInstr>
    ensures row { option_map Instr.Vector result ≡ scan (rows WholeMoves) word }
    ensures group { IfSome result (λ i. is_other_operation i ≡ true) }
{
    let count = whole_move_op(word & 0xfe0f_f07f)?;
    Some(VectorInstr::WholeMove {
        count,
        vd: vreg(word, 7),
        vs2: vreg(word, 20),
    })
}

/// Decode a logical operation on masks, which is always unmasked.
#[tactic(auto, using(crate::proofs::Scan::scan_mask_logic))]
pub(crate) fn mask_logic(word: u32) -> Option<VectorInstr>
    ensures row { option_map Instr.Vector result ≡ scan (rows MaskLogics) word }
    ensures group { IfSome result (λ i. is_other_operation i ≡ true) }
{
    let op = mask_logic_op(word & 0xfe00_707f)?;
    Some(VectorInstr::MaskLogic {
        op,
        vd: vreg(word, 7),
        vs1: vreg(word, 15),
        vs2: vreg(word, 20),
    })
}

/// Decode `vcompress.vm`, which is always unmasked.
pub(crate) fn compress(word: u32) -> Option<VectorInstr>
    ensures row { option_map Instr.Vector result ≡ scan (rows Compresses) word }
    ensures group { IfSome result (λ i. is_other_operation i ≡ true) }
{
    if word & 0xfe00_707f == 0x5e00_2057 {
        Some(VectorInstr::Compress {
            vd: vreg(word, 7),
            vs1: vreg(word, 15),
            vs2: vreg(word, 20),
        })
    } else {
        None
    }
}

/// Decode `vcpop.m` or `vfirst.m`.
#[tactic(auto, using(crate::proofs::Scan::scan_mask_to_scalar))]
pub(crate) fn mask_to_scalar(word: u32) -> Option<VectorInstr>
    ensures row { option_map Instr.Vector result ≡ scan (rows MasksToScalar) word }
    ensures group { IfSome result (λ i. is_other_operation i ≡ true) }
{
    let op = mask_to_scalar_op(word & 0xfc0f_f07f)?;
    Some(VectorInstr::MaskToScalar {
        op,
        rd: reg(word, 7),
        vs2: vreg(word, 20),
        vm: is_unmasked(word),
    })
}

/// Decode VXUNARY0: an integer extension.
#[tactic(auto, using(crate::proofs::Scan::scan_extend))]
pub(crate) fn extend(word: u32) -> Option<VectorInstr>
    ensures row { option_map Instr.Vector result ≡ scan (rows Extends) word }
    ensures group { IfSome result (λ i. is_other_operation i ≡ true) }
{
    let op = extend_op(word & 0xfc0f_f07f)?;
    Some(VectorInstr::Extend {
        op,
        vd: vreg(word, 7),
        vs2: vreg(word, 20),
        vm: is_unmasked(word),
    })
}

/// Decode VMUNARY0 with a mask as the source.
#[tactic(auto, using(crate::proofs::Scan::scan_mask_unary))]
pub(crate) fn mask_unary(word: u32) -> Option<VectorInstr>
    ensures row { option_map Instr.Vector result ≡ scan (rows MaskUnaries) word }
    ensures group { IfSome result (λ i. is_other_operation i ≡ true) }
{
    let op = mask_unary_op(word & 0xfc0f_f07f)?;
    Some(VectorInstr::MaskUnary {
        op,
        vd: vreg(word, 7),
        vs2: vreg(word, 20),
        vm: is_unmasked(word),
    })
}

/// Decode `vid.v`.
pub(crate) fn element_index(word: u32) -> Option<VectorInstr>
    ensures row { option_map Instr.Vector result ≡ scan (rows ElementIndices) word }
    ensures group { IfSome result (λ i. is_other_operation i ≡ true) }
{
    if word & 0xfdff_f07f == 0x5008_a057 {
        Some(VectorInstr::ElementIndex {
            vd: vreg(word, 7),
            vm: is_unmasked(word),
        })
    } else {
        None
    }
}

/// Decode `vmv.x.s`.
pub(crate) fn move_to_scalar(word: u32) -> Option<VectorInstr>
    ensures row { option_map Instr.Vector result ≡ scan (rows MovesToScalar) word }
    ensures group { IfSome result (λ i. is_other_operation i ≡ true) }
{
    if word & 0xfe0f_f07f == 0x4200_2057 {
        Some(VectorInstr::MoveToScalar {
            rd: reg(word, 7),
            vs2: vreg(word, 20),
        })
    } else {
        None
    }
}

/// Decode `vmv.s.x`.
pub(crate) fn move_to_vector(word: u32) -> Option<VectorInstr>
    ensures row { option_map Instr.Vector result ≡ scan (rows MovesToVector) word }
    ensures group { IfSome result (λ i. is_other_operation i ≡ true) }
{
    if word & 0xfff0_707f == 0x4200_6057 {
        Some(VectorInstr::MoveToVector {
            vd: vreg(word, 7),
            rs1: reg(word, 15),
        })
    } else {
        None
    }
}
