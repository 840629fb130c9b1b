//! Moves of whole registers ("V" Vector Extension 1.0, section 16.6).
ghost use Rattle.std.specs.Prelude.{◌≡◌, ◌*◌, false, true};
ghost use Rattle.rv_model.specs.elements.Arithmetic.{group_element, with_results};
ghost use Rattle.rv_model.specs.vector.Groups.{register_count, whole_type, register_of};
ghost use Rattle.rv_model.specs.lending.GroupBounds.{HoldsBody, IsInside};
ghost use Rattle.rv_model.specs.elements.Bodies.{whole_body};

use crate::destination::{Destination, write_group};
use lane_arith::{Body, Copies, Lane};
use reg_groups::{group_copy, mask_register, register_count};
use rv_model::instructions::operations::RegisterCount;
use rv_model::{GROUP_BYTES, Sew, VFile, VLENB, VReg, VState, VType};

/// A move of whole registers; `emul` is their number, in eighths of a register.
#[derive(Clone, Copy)]
struct WholeMoveOperation {
    vd: VReg,
    vs2: VReg,
    emul: u32,
}

impl WholeMoveOperation {
    /// Move the elements from `start` on; `count` is the number of elements in the registers.
    fn write<L: Lane>(&self, start: usize, count: usize, file: &mut VFile)
        requires destination { IsInside self.now.vd self.now.emul }
        requires source { IsInside self.now.vs2 self.now.emul }
        requires holds { HoldsBody L.width self.now.emul count count }
        ensures { file.new ≡ with_results (record { width = L.width; emul = self.now.emul }) self.now.vd
            (record { unmasked = true; mask = register_of file.old 0; start = start; end = count }) false false
            (group_element (record { width = L.width; emul = self.now.emul }) file.old self.now.vs2) file.old }
    {
        let mask = mask_register(file);
        let mut copy = [0; GROUP_BYTES];
        let b = group_copy(file, self.vs2, self.emul, &mut copy);
        let body = Body::new(true, &mask, start, count);
        let destination = Destination {
            vd: self.vd,
            emul: self.emul,
            count,
            fill_masked_off: false,
            fill_tail: false,
        };
        write_group::<L, Copies<'_>>(&Copies { b }, destination, &body, file);
    }
}

/// Execute a move of whole registers, with elements of SEW, for each vl.
#[tactic(auto, using(rv_model::proofs::legality_lemmas::Moves::whole_groups_hold_body))]
pub(crate) fn perform_whole_move(
    count: RegisterCount,
    vd: VReg,
    vs2: VReg,
    vtype: VType,
    state: &mut VState,
)
    requires destination { IsInside vd (8 * register_count count) }
    requires source { IsInside vs2 (8 * register_count count) }
    ensures { state.new ≡ record state.old {
      file =
          with_results (whole_type vtype count) vd (whole_body (whole_type vtype count) state.old) false false
          (group_element (whole_type vtype count) state.old.file vs2) state.old.file;
    } }
{
    let registers = register_count(count);
    let emul = 8 * u32::from(registers);
    let length = VLENB * usize::from(registers);
    let start = usize::from(state.vstart);
    let operation = WholeMoveOperation { vd, vs2, emul };
    let file = &mut state.file;
    match vtype.sew {
        Sew::E8 => operation.write::<u8>(start, length, file),
        Sew::E16 => operation.write::<u16>(start, length / 2, file),
        Sew::E32 => operation.write::<u32>(start, length / 4, file),
        Sew::E64 => operation.write::<u64>(start, length / 8, file),
    }
}
