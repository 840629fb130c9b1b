//! The elements that a load or store moves, passed to a viewer one after another ("V" Vector Extension 1.0,
//! chapter 7).
ghost use Rattle.std.specs.Prelude.{◌≡◌, ◌+◌, ◌*◌, ◌-◌, ◌≤◌, ◌<◌, ◌++◌, ◌∷◌, [], ℕ, List, length, map};
ghost use Rattle.rv_model.specs.accesses.VectorAccess.{unit_direction};
ghost use Rattle.rv_model.specs.declared.vector.sizes.TheConstants.{GROUP_BYTES};
ghost use Rattle.vector_memory.specs.MovedElements.{HasSeen, MovedElement, element_of, elements_before, moved_element};
ghost use Rattle.vector_memory.specs.SegmentRoom.{HasRoom, place_in, segment_transfers};

use crate::addresses::Addresses;
use crate::moves::Moves;
use crate::segments::Segments;
use rv_model::VFile;
use rv_model::instructions::operations::{Direction, UnitOp};

/// Receiver of the elements that a load or store moves, in order.
pub trait Viewer {
    // Whether the viewer received these elements between two of its states.
    ghost saw: { Self → List MovedElement → Self → Type 0 };

    // Whether the viewer has room for a number of elements.
    ghost has_room: { Self → ℕ → Type 0 };

    /// Receive an element: whether it is loaded or stored, its address, and its bytes in the registers before
    /// the instruction, at most 8.
    fn see(&mut self, direction: Direction, address: u64, bytes: &[u8])
        requires size { length bytes.now ≤ 8 }
        requires room { has_room self.old 1 }
        ensures seen { saw self.old (moved_element direction address bytes.now ∷ []) self.new }
        ensures left { (count : ℕ) → has_room self.old (count + 1) → has_room self.new count };

    // Receiving no element changes nothing.
    ghost saw_none: { (v : Self) → saw v [] v };

    // Receiving some elements and then others is receiving both lists in sequence.
    ghost saw_more: { (a b c : Self) (xs ys : List MovedElement) → saw a xs b → saw b ys c → saw a (xs ++ ys) c };

    // Room for a number of elements is room for fewer.
    ghost fewer: { (v : Self) (more count : ℕ) → has_room v (count + more) → has_room v count };
}

/// Return the direction of a unit-stride operation.
#[inline(always)]
pub fn unit_direction(op: UnitOp) -> Direction
    ensures { result ≡ unit_direction op }
{
    match op {
        UnitOp::Store => Direction::Store,
        UnitOp::Load | UnitOp::FaultOnlyFirst => Direction::Load,
    }
}

impl Segments {
    /// Pass the fields of the segment of an index to the viewer.
    #[inline(always)]
    fn show<V: Viewer>(
        &self,
        direction: Direction,
        file: &VFile,
        address: u64,
        index: usize,
        viewer: &mut V,
    )
        requires room { HasRoom self.now (index + 1) }
        requires viewer { V.has_room viewer.old self.now.fields }
        ensures { HasSeen V.saw V.has_room self.now.fields viewer.old
            (map (element_of direction (place_in self.now) file.now) (segment_transfers self.now index address)) viewer.new }
    {
        for field in 0..self.fields {
            let at = self.place(index, field);
            let bytes = file.part(at, at + self.size);
            viewer.see(direction, self.field_address(address, field), bytes);
        }
    }
}

impl<A: Addresses> Moves<'_, A> {
    /// Pass each element of the active indices to the viewer, in the order of indices and fields.
    #[inline(always)]
    pub(crate) fn show<V: Viewer>(&self, op: UnitOp, file: &VFile, viewer: &mut V)
        requires { V.has_room viewer.old (8 * GROUP_BYTES) }
        ensures { HasSeen V.saw V.has_room (8 * GROUP_BYTES) viewer.old (elements_before (unit_direction op)
            self.now.segments self.now.body (A.address self.now.addresses) file.now self.now.body.end) viewer.new }
    {
        let direction = unit_direction(op);
        for index in self.body.start()..self.body.end() {
            if self.body.is_enabled(index) {
                let address = self.addresses.address(index);
                self.segments.show(direction, file, address, index, viewer);
            }
        }
    }
}
