//! Elements that an instruction moved between registers and memory.
ghost use Rattle.std.specs.Prelude.{◌≡◌, ◌+◌, ◌≤◌, ◌++◌, ℕ, flat_map, length};
ghost use Rattle.std.specs.Int.{byte_len};
ghost use Rattle.rv_model.specs.scalar.LoadsAndStores.{store_width};
ghost use Rattle.rv_model.specs.step.Hart.{HartState};
ghost use Rattle.commit_log.specs.Finds.{Finds, Retires};
ghost use Rattle.commit_log.specs.Lines.{printed_moved};
ghost use Rattle.commit_log.specs.LineTexts.{moved_text};

use crate::moves::push_moves;
use crate::numbers::{push_hex16, push_reversed};
use crate::pre_state::PreState;
use crate::text::{TEXT_SIZE, Text};
use rv_model::instructions::operations::StoreOp;
use rv_model::{Instr, ScalarInstr};

/// Return the number of bytes that a store writes.
#[inline(always)]
fn store_bytes(op: StoreOp) -> usize
    ensures value { result ≡ byte_len (store_width op) }
    ensures most { result ≤ 8 }
{
    match op {
        StoreOp::Sb => 1,
        StoreOp::Sh => 2,
        StoreOp::Sw => 4,
        StoreOp::Sd => 8,
    }
}

/// Append the elements that an instruction moved, from the state before it and the vector length after it.
#[inline(always)]
pub(crate) fn push_memory(text: &mut Text, found: &PreState, instr: &Instr, vl: u16)
    requires room { length text.old + 86057 ≤ TEXT_SIZE }
    ensures text { (word : ℕ) (s : HartState) → Finds word (Some instr.now) s.scalar s.vector found.now
        → Retires instr.now s.vector vl → text.new ≡ text.old ++ flat_map moved_text (printed_moved instr.now s vl) }
    ensures bound { length text.new ≤ length text.old + 86057 }
{
    match instr {
        Instr::Scalar(ScalarInstr::Load { .. }) => {
            text.push(b" mem 0x");
            push_hex16(text, found.address);
        }
        Instr::Scalar(ScalarInstr::Store { op, .. }) => {
            text.push(b" mem 0x");
            push_hex16(text, found.address);
            text.push(b" 0x");
            push_reversed(text, &found.value.to_le_bytes()[..store_bytes(*op)]);
        }
        Instr::Access(instr) => push_moves(text, instr, &found.scalar, &found.vector, vl),
        Instr::Scalar(_) | Instr::Csr(_) | Instr::Vector(_) => {}
    }
}
