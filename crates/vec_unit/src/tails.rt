//! Filling of the tails of a load's fields ("V" Vector Extension 1.0, sections 3.4.3, 5.4 and 7.8).
ghost use Rattle.std.specs.Prelude.{◌≡◌, ◌+◌, ◌*◌, ◌≤◌};
ghost use Rattle.rv_model.specs.lending.GroupBounds.{HoldsBody, IsInside, SegmentsInside};
ghost use Rattle.rv_model.specs.step.MemoryStep.{tail_filled, tails_filled};
ghost use Rattle.rv_model.specs.vector.Groups.{sew_width, registers};

use lane_arith::{Lane, fill};
use reg_groups::{group_mut, registers};
use rv_model::{Field, Sew, VECTOR_REGISTERS, VFile, VLENB, VReg};

/// The fields of segments: `nf` + 1 consecutive groups that start at `vd`. Each has elements of `sew` and the
/// multiplier `emul`, in eighths of a register.
#[derive(Clone, Copy)]
pub(crate) struct Fields {
    pub vd: VReg,
    pub nf: Field<3>,
    pub sew: Sew,
    pub emul: u32,
}

/// Fill a group of `count` elements with ones, from element `start` on.
fn fill_tail<L: Lane>(vd: VReg, emul: u32, start: usize, count: usize, file: &mut VFile)
    requires inside { IsInside vd emul }
    requires holds { HoldsBody L.width emul count start }
    ensures { file.new ≡ tail_filled (record { width = L.width; emul = emul }) vd start file.old }
{
    let group = group_mut(file, vd, emul);
    fill(L::all_ones(), start, count, group);
}

/// Fill the group of each field, which has `count` elements, with ones, from element `start` on.
fn fill_each_tail<L: Lane>(fields: Fields, start: usize, count: usize, file: &mut VFile)
    requires inside { fields.vd + (fields.nf + 1) * registers fields.emul ≤ VECTOR_REGISTERS }
    requires holds { HoldsBody L.width fields.emul count start }
    ensures { file.new ≡ tails_filled (record { width = L.width; emul = fields.emul }) fields.vd (fields.nf + 1)
        start file.old }
{
    let size = registers(fields.emul);
    for field in 0..fields.nf.value() + 1 {
        let vd = VReg::new(fields.vd.number() + field * size);
        fill_tail::<L>(vd, fields.emul, start, count, file);
    }
}

/// Fill the tail of each field with ones, from element `start` on.
pub(crate) fn fill_tails(fields: Fields, start: usize, file: &mut VFile)
    requires { SegmentsInside (record { width = sew_width fields.sew; emul = fields.emul }) fields.vd fields.nf start }
    ensures { file.new ≡ tails_filled (record { width = sew_width fields.sew; emul = fields.emul }) fields.vd
        (fields.nf + 1) start file.old }
{
    let length = VLENB * registers(fields.emul) as usize;
    match fields.sew {
        Sew::E8 => fill_each_tail::<u8>(fields, start, length, file),
        Sew::E16 => fill_each_tail::<u16>(fields, start, length / 2, file),
        Sew::E32 => fill_each_tail::<u32>(fields, start, length / 4, file),
        Sew::E64 => fill_each_tail::<u64>(fields, start, length / 8, file),
    }
}
