//! Decoding of vector loads and stores by their fixed bits.
#![tactic(auto, unfolding(rv_model::specs::lending::Search::find))]

ghost use Rattle.std.specs.Prelude.{◌≡◌};
ghost use Rattle.rv_model.specs.instructions.Table.{counts, directions};
ghost use Rattle.rv_model.specs.lending.ListedBits.{mask_memory_bits, unit_access_bits, strided_access_bits};
ghost use Rattle.rv_model.specs.lending.ListedBits.{indexed_access_bits, whole_load_bits, whole_store_bits};
ghost use Rattle.rv_model.specs.lending.Families.{unit_accesses, strided_accesses, indexed_accesses, whole_loads};
ghost use Rattle.rv_model.specs.lending.Search.{find};

use rv_model::instructions::operations::{Direction, Eew, Order, RegisterCount, UnitOp};

/// The unit-stride access with these fixed bits.
#[inline(always)]
pub(crate) fn unit_access(bits: u32) -> Option<(UnitOp, Eew)>
    ensures { result ≡ find unit_access_bits unit_accesses bits }
{
    match bits {
        0x0000_0007 => Some((UnitOp::Load, Eew::E8)),
        0x0000_5007 => Some((UnitOp::Load, Eew::E16)),
        0x0000_6007 => Some((UnitOp::Load, Eew::E32)),
        0x0000_7007 => Some((UnitOp::Load, Eew::E64)),
        0x0100_0007 => Some((UnitOp::FaultOnlyFirst, Eew::E8)),
        0x0100_5007 => Some((UnitOp::FaultOnlyFirst, Eew::E16)),
        0x0100_6007 => Some((UnitOp::FaultOnlyFirst, Eew::E32)),
        0x0100_7007 => Some((UnitOp::FaultOnlyFirst, Eew::E64)),
        0x0000_0027 => Some((UnitOp::Store, Eew::E8)),
        0x0000_5027 => Some((UnitOp::Store, Eew::E16)),
        0x0000_6027 => Some((UnitOp::Store, Eew::E32)),
        0x0000_7027 => Some((UnitOp::Store, Eew::E64)),
        _ => None,
    }
}

/// The strided access with these fixed bits.
pub(crate) fn strided_access(bits: u32) -> Option<(Direction, Eew)>
    ensures { result ≡ find strided_access_bits strided_accesses bits }
{
    match bits {
        0x0800_0007 => Some((Direction::Load, Eew::E8)),
        0x0800_5007 => Some((Direction::Load, Eew::E16)),
        0x0800_6007 => Some((Direction::Load, Eew::E32)),
        0x0800_7007 => Some((Direction::Load, Eew::E64)),
        0x0800_0027 => Some((Direction::Store, Eew::E8)),
        0x0800_5027 => Some((Direction::Store, Eew::E16)),
        0x0800_6027 => Some((Direction::Store, Eew::E32)),
        0x0800_7027 => Some((Direction::Store, Eew::E64)),
        _ => None,
    }
}

/// The indexed access with these fixed bits, with the width of an index.
pub(crate) fn indexed_access(bits: u32) -> Option<((Direction, Order), Eew)>
    ensures { result ≡ find indexed_access_bits indexed_accesses bits }
{
    match bits {
        0x0400_0007 => Some(((Direction::Load, Order::Unordered), Eew::E8)),
        0x0400_5007 => Some(((Direction::Load, Order::Unordered), Eew::E16)),
        0x0400_6007 => Some(((Direction::Load, Order::Unordered), Eew::E32)),
        0x0400_7007 => Some(((Direction::Load, Order::Unordered), Eew::E64)),
        0x0c00_0007 => Some(((Direction::Load, Order::Ordered), Eew::E8)),
        0x0c00_5007 => Some(((Direction::Load, Order::Ordered), Eew::E16)),
        0x0c00_6007 => Some(((Direction::Load, Order::Ordered), Eew::E32)),
        0x0c00_7007 => Some(((Direction::Load, Order::Ordered), Eew::E64)),
        0x0400_0027 => Some(((Direction::Store, Order::Unordered), Eew::E8)),
        0x0400_5027 => Some(((Direction::Store, Order::Unordered), Eew::E16)),
        0x0400_6027 => Some(((Direction::Store, Order::Unordered), Eew::E32)),
        0x0400_7027 => Some(((Direction::Store, Order::Unordered), Eew::E64)),
        0x0c00_0027 => Some(((Direction::Store, Order::Ordered), Eew::E8)),
        0x0c00_5027 => Some(((Direction::Store, Order::Ordered), Eew::E16)),
        0x0c00_6027 => Some(((Direction::Store, Order::Ordered), Eew::E32)),
        0x0c00_7027 => Some(((Direction::Store, Order::Ordered), Eew::E64)),
        _ => None,
    }
}

/// The load of whole registers with these fixed bits.
pub(crate) fn whole_load_access(bits: u32) -> Option<(RegisterCount, Eew)>
    ensures { result ≡ find whole_load_bits whole_loads bits }
{
    match bits {
        0x0280_0007 => Some((RegisterCount::One, Eew::E8)),
        0x0280_5007 => Some((RegisterCount::One, Eew::E16)),
        0x0280_6007 => Some((RegisterCount::One, Eew::E32)),
        0x0280_7007 => Some((RegisterCount::One, Eew::E64)),
        0x2280_0007 => Some((RegisterCount::Two, Eew::E8)),
        0x2280_5007 => Some((RegisterCount::Two, Eew::E16)),
        0x2280_6007 => Some((RegisterCount::Two, Eew::E32)),
        0x2280_7007 => Some((RegisterCount::Two, Eew::E64)),
        0x6280_0007 => Some((RegisterCount::Four, Eew::E8)),
        0x6280_5007 => Some((RegisterCount::Four, Eew::E16)),
        0x6280_6007 => Some((RegisterCount::Four, Eew::E32)),
        0x6280_7007 => Some((RegisterCount::Four, Eew::E64)),
        0xe280_0007 => Some((RegisterCount::Eight, Eew::E8)),
        0xe280_5007 => Some((RegisterCount::Eight, Eew::E16)),
        0xe280_6007 => Some((RegisterCount::Eight, Eew::E32)),
        0xe280_7007 => Some((RegisterCount::Eight, Eew::E64)),
        _ => None,
    }
}

/// The number of registers that the store of whole registers with these fixed bits writes to memory.
pub(crate) fn whole_store_count(bits: u32) -> Option<RegisterCount>
    ensures { result ≡ find whole_store_bits counts bits }
{
    match bits {
        0x0280_0027 => Some(RegisterCount::One),
        0x2280_0027 => Some(RegisterCount::Two),
        0x6280_0027 => Some(RegisterCount::Four),
        0xe280_0027 => Some(RegisterCount::Eight),
        _ => None,
    }
}

/// The direction of the mask access with these fixed bits.
pub(crate) fn mask_memory_direction(bits: u32) -> Option<Direction>
    ensures { result ≡ find mask_memory_bits directions bits }
{
    match bits {
        0x02b0_0007 => Some(Direction::Load),
        0x02b0_0027 => Some(Direction::Store),
        _ => None,
    }
}
