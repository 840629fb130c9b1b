//! The number of runs, and the number of wrong runs.

/// The number of runs, and the number of runs that differ from the expected result.
#[derive(Clone, Copy, Drop)]
pub(crate) struct Tally {
    pub runs: u64,
    pub differ: u64,
}

impl Tally {
    /// The tally before any run.
    pub(crate) fn new() -> Tally {
        Tally { runs: 0, differ: 0 }
    }

    /// Counts a run, and whether it is right.
    pub(crate) fn add(&mut self, is_right: bool) {
        self.runs = self.runs.wrapping_add(1);
        if !is_right {
            self.differ = self.differ.wrapping_add(1);
        }
    }
}
