//! Errors of a recorder.
ghost use Rattle.std.specs.Prelude.{◌≡◌};
ghost use Rattle.recording.specs.declared.fault.RecordFault.TheVariants as record_fault;

/// The table of counts has no row left.
#[derive(Debug, Drop)]
pub(crate) struct TableFull;

/// The reason why a recorder can't record a run to its end.
#[derive(Debug, Drop)]
pub enum RecordFault {
    /// The table of counts has no row left.
    TableFull,
    /// Bytes that a recorder reads aren't mapped.
    Unmapped,
    /// A write to the stream with this name failed.
    Write(&'static str),
}

impl From<TableFull> for RecordFault {
    ghost from_gives = { λ _ fault. fault ≡ record_fault.TableFull };

    fn from(_full: TableFull) -> Self {
        RecordFault::TableFull
    }
}
