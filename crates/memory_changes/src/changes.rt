//! Changes of watched places in a run.
ghost use Rattle.std.specs.Prelude.{◌≡◌, ◌⊎◌, ◌<◌, IfOk};

use crate::lines::{Moment, write_changes};
use crate::place::{MAX_LENGTH, Place};
use crate::reading::read_places;
use devices::Sink;
use recording::{RecordFault, Recorder, SingleUserMachine};
use rv_model::StepEnd;
use std::alloc::{AllocError, Allocator, Global};
use vector_memory::UserBytes;

/// Watched places, with memory for their bytes before an instruction.
#[derive(Drop)]
pub struct WatchedPlaces<A: Allocator = Global> {
    pub places: Vec<Place, A>,
    before: Vec<u8, A>,
}

impl<A: Allocator> WatchedPlaces<A> {
    /// Allocate all memory that a run needs to watch these places; return `AllocError` if that fails.
    pub fn new(alloc: A, places: Vec<Place, A>) -> Result<Self, AllocError>
        ensures { IfOk result (λ watched. watched.places ≡ places) }
    {
        let before = Vec::with_capacity(alloc, MAX_LENGTH.saturating_mul(places.len()))?;
        Ok(WatchedPlaces { places, before })
    }
}

/// Recorder that writes a line for each change of a place, instruction by instruction. `ticks` counts the ticks of all recorded
/// instructions.
#[derive(Drop)]
pub struct Changes<K, A: Allocator = Global> {
    pub sink: K,
    pub places: Vec<Place, A>,
    pub number: u64,
    pub ticks: u64,
    pc: u64,
    before: Vec<u8, A>,
}

impl<K: Sink + Drop, A: Allocator> Changes<K, A> {
    /// Create a recorder before the first instruction, which writes to a sink. A run allocates no memory.
    pub fn new(sink: K, watched: WatchedPlaces<A>) -> Self
        ensures sink { result.sink ≡ sink }
        ensures places { result.places ≡ watched.places }
        ensures number { result.number ≡ 0 }
        ensures ticks { result.ticks ≡ 0 }
    {
        let WatchedPlaces { places, before } = watched;
        Changes {
            sink,
            places,
            number: 0,
            ticks: 0,
            pc: 0,
            before,
        }
    }
}

impl<M: UserBytes, K: Sink, A: Allocator> Recorder<M> for Changes<K, A> {
    ghost use Rattle.memory_changes.specs.Recorded.{IsNoted, IsRecorded};
    ghost use Rattle.recording.specs.declared.fault.RecordFault.TheVariants.{Unmapped};
    ghost use Rattle.memory_changes.specs.RecordLaws.{none_changed, more_changed};

    ghost recorded = { IsRecorded K.took };

    ghost prepared = { IsNoted };

    ghost failed = { λ changes fault. (fault ≡ Unmapped) ⊎ (0 < K.failures changes.sink) };

    #[inline(always)]
    fn before_step(&mut self, machine: &SingleUserMachine<M>) -> Result<(), RecordFault> {
        self.pc = machine.scalar.pc;
        let places = self.places.as_slice();
        read_places(&machine.memory, places, &mut self.before)
    }

    #[inline(always)]
    fn after_step(
        &mut self,
        machine: &SingleUserMachine<M>,
        _end: StepEnd,
        ticks: usize,
    ) -> Result<(), RecordFault> {
        self.number = self.number.wrapping_add(1);
        self.ticks = self.ticks.wrapping_add(ticks as u64);
        let moment = Moment {
            number: self.number,
            ticks: self.ticks,
            pc: self.pc,
        };
        let places = self.places.as_slice();
        let before = self.before.as_slice();
        write_changes(&mut self.sink, &machine.memory, &moment, places, before)
    }

    ghost recorded_none = { none_changed K.took K.took_none };

    ghost recorded_more = { more_changed K.took K.took_more };
}
