//! Elements that a vector load or store moved ("V" Vector Extension 1.0, chapter 7).
ghost use Rattle.std.specs.Prelude.{◌≡◌, ◌+◌, ◌*◌, ◌≤◌, ◌++◌, [], IsTrue, flat_map, length};
ghost use Rattle.std.specs.Option.{option_map_or};
ghost use Rattle.rv_model.specs.accesses.VectorAccess.{access_of};
ghost use Rattle.rv_model.specs.legality.Legality.{is_legal};
ghost use Rattle.vector_memory.specs.MovedElements.{moved_elements};
ghost use Rattle.commit_log.specs.LineTexts.{moved_text};

use crate::numbers::{push_hex16, push_reversed};
use crate::text::{TEXT_SIZE, Text};
use reg_groups::legal_access;
use rv_model::instructions::operations::Direction;
use rv_model::{AccessInstr, Instr, Scalar, VState};
use vector_memory::{Viewer, show_moves};

impl Viewer for Text {
    ghost use Rattle.commit_log.specs.MovedLaws.{fewer_moved, more_moved, none_moved};
    ghost use Rattle.commit_log.specs.declared.text.TheConstants.{TEXT_SIZE};

    ghost saw = { λ old moved new. new ≡ old ++ flat_map moved_text moved };

    ghost has_room = { λ text count. length text + 42 * count ≤ TEXT_SIZE };

    #[inline(always)]
    fn see(&mut self, direction: Direction, address: u64, bytes: &[u8]) {
        self.push(b" mem 0x");
        push_hex16(self, address);
        if let Direction::Store = direction {
            self.push(b" 0x");
            push_reversed(self, bytes);
        }
    }

    ghost saw_none = { none_moved };

    ghost saw_more = { more_moved };

    ghost fewer = { fewer_moved };
}

/// Append the elements that a load or store moved, from the registers before it and the vector length after it.
#[inline(never)]
pub(crate) fn push_moves(
    text: &mut Text,
    instr: &AccessInstr,
    scalar: &Scalar,
    state: &VState,
    vl: u16,
)
    requires room { length text.old + 86057 ≤ TEXT_SIZE }
    ensures text { IsTrue (is_legal (Instr.Access instr.now) state.now.conf.vtype state.now.vstart) → vl ≤ state.now.conf.vl
        → text.new ≡ text.old
        ++ flat_map moved_text (option_map_or (moved_elements state.now vl) (access_of instr.now state.now scalar.now) []) }
    ensures bound { length text.new ≤ length text.old + 86057 }
{
    // This always holds for an instruction that completed; the bound of the text needs the test.
    if legal_access(instr, &state.conf) && vl <= state.conf.vl() {
        show_moves(instr, state, scalar, vl, text);
    }
}
