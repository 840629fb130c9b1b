//! Counts of a run's instructions.
ghost use Rattle.std.specs.Prelude.{◌≡◌, [], IfOk};
ghost use Rattle.std.specs.Vec.{vec_capacity};

use crate::counting::{count_second_key, is_counted, word_at};
use crate::elements::with_elements;
use crate::fault::RecordFault;
use crate::machine::SingleUserMachine;
use crate::pre_state::{PreState, is_plain};
use crate::recorder::Recorder;
use crate::sums::Sums;
use crate::table::Table;
use rv_model::StepEnd;
use std::alloc::{AllocError, Allocator, Global};
use vector_memory::UserBytes;

/// A recorder that counts each instruction in the row of its word, and in the row of its length or jump.
#[derive(Drop)]
pub struct Counts<A: Allocator = Global> {
    pub table: Table<A>,
    index: usize,
    found: PreState,
}

impl<A: Allocator + Copy> Counts<A> {
    /// Return a recorder without counts, with memory for its table. Fails if the allocator has no room.
    pub fn new(alloc: A) -> Result<Self, AllocError>
        ensures empty { IfOk result (λ counts. counts.table.rows.items ≡ []) }
        ensures room { IfOk result (λ counts. vec_capacity counts.table.rows ≡ 131072) }
    {
        Ok(Counts {
            table: Table::new(alloc)?,
            index: 0,
            found: PreState::none(),
        })
    }
}

impl<M: UserBytes, A: Allocator> Recorder<M> for Counts<A> {
    ghost use Rattle.recording.specs.PreState.{IsRowFor};
    ghost use Rattle.recording.specs.declared.fault.RecordFault.TheVariants.{TableFull};
    ghost use Rattle.std.specs.Vec.{vec_capacity};
    ghost use Rattle.recording.specs.Rows.{AreFull};
    ghost use Rattle.recording.specs.Runs.{shares};
    ghost use Rattle.recording.specs.Sums.{HasMore, no_more};
    ghost use Rattle.recording.specs.CountLaws.{none_shared, more_shared};

    ghost recorded = { λ a states b. HasMore (shares states) a.table.rows.items b.table.rows.items };

    ghost prepared = { λ a state b. HasMore no_more a.table.rows.items b.table.rows.items
        × IsRowFor state b.index b.found b.table.rows.items };

    ghost failed = { λ counts fault. (fault ≡ TableFull) × AreFull (vec_capacity counts.table.rows) counts.table.rows.items };

    #[inline(always)]
    fn before_step(&mut self, machine: &SingleUserMachine<M>) -> Result<(), RecordFault> {
        let pc = machine.scalar.pc;
        let word = word_at(&machine.memory, pc);
        let index = self.table.word_row(pc, word)?;
        let row = self.table.rows[index];
        self.index = index;
        self.found
            .capture(row.class, pc, &machine.vectors.seat.state);
        Ok(())
    }

    #[inline(always)]
    fn after_step(
        &mut self,
        machine: &SingleUserMachine<M>,
        end: StepEnd,
        ticks: usize,
    ) -> Result<(), RecordFault> {
        if !is_counted(end) {
            return Ok(());
        }
        let index = self.index;
        if index >= self.table.rows.len() {
            // This never happens after `before_step`; the proof needs the test.
            return Ok(());
        }
        let row = self.table.rows[index];
        if is_plain(row.class) {
            self.table.count_at(index, Sums::plain(ticks));
            return Ok(());
        }
        let found = &self.found;
        let conf = machine.vectors.seat.state.conf;
        let sums = with_elements(row.class, found, conf, ticks);
        self.table.count_at(index, sums);
        count_second_key(&mut self.table, row.class, found, machine.scalar.pc)?;
        Ok(())
    }

    ghost recorded_none = { λ r. none_shared r.table.rows.items };

    ghost recorded_more = { λ a b c xs ys.
        more_shared xs ys a.table.rows.items b.table.rows.items c.table.rows.items };
}
