//! Decoding of vector loads and stores, with a function for each layout of operands.
ghost use Rattle.std.specs.Prelude.{◌≡◌, option_map};
ghost use Rattle.rv_model.specs.instructions.Table.{scan};
ghost use Rattle.rv_model.specs.lending.Families.{rows, Units, Strideds, Indexeds, WholeLoads, WholeStores};
ghost use Rattle.rv_model.specs.lending.Families.{MaskMemories};

use crate::memory_operations::{
    indexed_access, mask_memory_direction, strided_access, unit_access, whole_load_access,
    whole_store_count,
};
use crate::word_fields::{is_unmasked, reg, vreg};
use rv_model::instructions::bits;
use rv_model::{AccessInstr, Field, Instr};

/// Decode a unit-stride load or store.
#[tactic(auto, using(crate::proofs::Scan::scan_unit))]
#[inline(always)]
pub(crate) fn unit(word: u32) -> Option<AccessInstr>
    ensures { option_map Instr.Access result ≡ scan (rows Units) word }
{
    let (op, width) = unit_access(word & 0x1df0_707f)?;
    Some(AccessInstr::UnitStride {
        op,
        width,
        nf: Field::new(bits(word, 29, 3)),
        vd: vreg(word, 7),
        rs1: reg(word, 15),
        vm: is_unmasked(word),
    })
}

/// Decode a strided load or store.
#[tactic(auto, using(crate::proofs::Scan::scan_strided))]
pub(crate) fn strided(word: u32) -> Option<AccessInstr>
    ensures { option_map Instr.Access result ≡ scan (rows Strideds) word }
{
    let (direction, width) = strided_access(word & 0x1c00_707f)?;
    Some(AccessInstr::Strided {
        direction,
        width,
        nf: Field::new(bits(word, 29, 3)),
        vd: vreg(word, 7),
        rs1: reg(word, 15),
        rs2: reg(word, 20),
        vm: is_unmasked(word),
    })
}

/// Decode an indexed load or store.
#[tactic(auto, using(crate::proofs::Scan::scan_indexed))]
pub(crate) fn indexed(word: u32) -> Option<AccessInstr>
    ensures { option_map Instr.Access result ≡ scan (rows Indexeds) word }
{
    let ((direction, order), width) = indexed_access(word & 0x1c00_707f)?;
    Some(AccessInstr::Indexed {
        direction,
        order,
        width,
        nf: Field::new(bits(word, 29, 3)),
        vd: vreg(word, 7),
        rs1: reg(word, 15),
        vs2: vreg(word, 20),
        vm: is_unmasked(word),
    })
}

/// Decode a load of whole registers.
#[tactic(auto, using(crate::proofs::Scan::scan_whole_load))]
pub(crate) fn whole_load(word: u32) -> Option<AccessInstr>
    ensures { option_map Instr.Access result ≡ scan (rows WholeLoads) word }
{
    let (count, width) = whole_load_access(word & 0xfff0_707f)?;
    Some(AccessInstr::WholeLoad {
        count,
        width,
        vd: vreg(word, 7),
        rs1: reg(word, 15),
    })
}

/// Decode a store of whole registers.
#[tactic(auto, using(crate::proofs::Scan::scan_whole_store))]
pub(crate) fn whole_store(word: u32) -> Option<AccessInstr>
    ensures { option_map Instr.Access result ≡ scan (rows WholeStores) word }
{
    let count = whole_store_count(word & 0xfff0_707f)?;
    Some(AccessInstr::WholeStore {
        count,
        vd: vreg(word, 7),
        rs1: reg(word, 15),
    })
}

/// Decode `vlm.v` or `vsm.v`.
#[tactic(auto, using(crate::proofs::Scan::scan_mask_memory))]
pub(crate) fn mask_memory(word: u32) -> Option<AccessInstr>
    ensures { option_map Instr.Access result ≡ scan (rows MaskMemories) word }
{
    let direction = mask_memory_direction(word & 0xfff0_707f)?;
    Some(AccessInstr::MaskAccess {
        direction,
        vd: vreg(word, 7),
        rs1: reg(word, 15),
    })
}
