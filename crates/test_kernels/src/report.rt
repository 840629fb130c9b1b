//! Results of the comparison: a line for each kernel, in the order of the comparison.
use std::io;

/// Number of compared results of a kernel, and number of those that differ from the expected result.
#[derive(Clone, Copy)]
pub(crate) struct Line {
    pub(crate) name: &'static str,
    /// Text printed after the name.
    pub(crate) kind: &'static str,
    pub(crate) compared: u64,
    pub(crate) differ: u64,
}

impl Line {
    /// Counts a compared result.
    pub(crate) fn count(&mut self, same: bool) {
        self.compared = self.compared.wrapping_add(1);
        self.differ = self.differ.wrapping_add(u64::from(!same));
    }
}

/// Capacity of a report in lines.
const MOST_LINES: usize = 512;

/// Lines of the kernels compared so far.
#[derive(Drop)]
pub(crate) struct Report {
    lines: [Line; MOST_LINES],
    count: usize,
}

impl Report {
    /// An empty report.
    pub(crate) fn new() -> Report {
        let none = Line {
            name: "",
            kind: "",
            compared: 0,
            differ: 0,
        };
        Report {
            lines: [none; MOST_LINES],
            count: 0,
        }
    }

    /// Adds a line.
    pub(crate) fn add(&mut self, line: Line) {
        self.lines[self.count % MOST_LINES] = line;
        self.count = self.count.wrapping_add(1);
    }

    /// Prints the lines.
    pub(crate) fn print(&self, rt: &impl Print) -> io::Result<()> {
        for line in self.lines.iter().take(self.count) {
            println!(rt;
                "{}{}: {} compared, {} differ",
                line.name, line.kind, line.compared, line.differ
            )?;
        }
        Ok(())
    }
}
