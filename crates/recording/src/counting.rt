//! The word of an instruction, the condition for its count, and the counts in addition to that of its word.
ghost use Rattle.std.specs.Prelude.{◌≡◌, true, OnErr, OnOk};
ghost use Rattle.std.specs.Vec.{vec_capacity};
ghost use Rattle.rv_model.specs.declared.memory.Access.TheVariants.{Fetch};
ghost use Rattle.rv_model.specs.memory.Memory.{can_access};
ghost use Rattle.rv_model.specs.step.Step.{word_at as word_at_spec};
ghost use Rattle.recording.specs.Runs.{is_counted, second_key, once_more};
ghost use Rattle.recording.specs.Rows.{AreFull};
ghost use Rattle.recording.specs.Sums.{HasMore};

use crate::class::Class;
use crate::fault::TableFull;
use crate::pre_state::PreState;
use crate::table::Table;
use hart::fetch;
use rv_model::StepEnd;
use std::alloc::Allocator;
use vector_memory::UserBytes;
use vtype_rules::vtype_number;

/// Return the word at an address if a fetch from it is allowed; otherwise the value is unspecified.
#[inline(always)]
pub fn word_at<M: UserBytes>(memory: &M, pc: u64) -> u32
    ensures { can_access Fetch (M.memory memory.now) pc 4 ≡ true → result ≡ word_at_spec (M.memory memory.now) pc }
{
    let mut word = 0;
    let _ = fetch(memory, pc, &mut word);
    word
}

/// Return whether an instruction with this end is counted: it retired, or it is the exit call.
#[inline(always)]
pub fn is_counted(end: StepEnd) -> bool
    ensures { result ≡ is_counted end }
{
    matches!(end, StepEnd::Ran | StepEnd::Exit(_))
}

/// Count an instruction in the row of its length or jump, if its class has one. `target` is the address of the next
/// instruction. Fails if the table is full.
#[inline(always)]
pub(crate) fn count_second_key<A: Allocator>(
    table: &mut Table<A>,
    class: Class,
    found: &PreState,
    target: u64,
) -> Result<(), TableFull>
    ensures counted { OnOk result (HasMore (once_more (second_key class found.now.conf found.now.pc target))
        table.old.rows.items table.new.rows.items) }
    ensures full { OnErr result (AreFull (vec_capacity table.new.rows) table.new.rows.items) }
{
    match class {
        Class::Plain => Ok(()),
        Class::Link => table.count_jump(found.pc, target),
        Class::Length { unmasked: _ } | Class::Other { extent: _ } => {
            table.count_length(vtype_number(found.conf.vtype()), found.conf.vl())
        }
    }
}
