//! Runs of a machine of one user, recorded or not.
#![tactic(auto)]

mod chooser;
mod class;
mod counting;
mod counts;
mod elements;
mod fault;
mod key;
mod laws;
mod machine;
mod open_chooser;
mod pre_state;
mod recorder;
mod recorder_pair;
mod retired;
mod row;
mod rows;
mod running;
mod short_writes;
mod sums;
mod table;

pub use chooser::{Chooser, NoChoices};
pub use class::{Class, Extent};
pub use counting::{is_counted, word_at};
pub use counts::Counts;
pub use fault::RecordFault;
pub use hart::SingleSlot;
pub use key::Key;
pub use laws::recording_laws;
pub use machine::SingleUserMachine;
pub use open_chooser::{Open, OpenChooser, has_run, open_at};
pub use recorder::Recorder;
pub use recorder_pair::RecorderPair;
pub use retired::Retired;
pub use row::Row;
pub use rows::totals;
pub use running::run;
pub use short_writes::ShortWrites;
pub use sums::Sums;
pub use table::{ROWS, Table};
