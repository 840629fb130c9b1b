//! Counts of instructions and elements.
ghost use Rattle.std.specs.Prelude.{◌≡◌};
ghost use Rattle.recording.specs.Sums.{added, no_sums, once, plain};

/// Numbers of executed instructions, of their ticks, and of their active, masked-off and tail elements. Each is counted
/// modulo 2^64.
#[derive(Clone, Copy)]
pub struct Sums {
    pub times: u64,
    pub ticks: u64,
    pub active: u64,
    pub masked: u64,
    pub tail: u64,
}

impl Sums {
    /// Return zeros.
    pub fn none() -> Sums
        ensures { result ≡ no_sums }
    {
        Sums {
            times: 0,
            ticks: 0,
            active: 0,
            masked: 0,
            tail: 0,
        }
    }

    /// Return the count of one execution, without ticks and elements.
    pub fn once() -> Sums
        ensures { result ≡ once }
    {
        Sums {
            times: 1,
            ..Sums::none()
        }
    }

    /// Return the count of one execution with these ticks, without elements.
    #[inline(always)]
    pub(crate) fn plain(ticks: usize) -> Sums
        ensures { result ≡ plain ticks }
    {
        Sums {
            times: 1,
            ticks: ticks as u64,
            ..Sums::none()
        }
    }

    /// Return the sum of both, modulo 2^64.
    #[inline(always)]
    pub fn added(self, other: Sums) -> Sums
        ensures { result ≡ added self other }
    {
        Sums {
            times: self.times.wrapping_add(other.times),
            ticks: self.ticks.wrapping_add(other.ticks),
            active: self.active.wrapping_add(other.active),
            masked: self.masked.wrapping_add(other.masked),
            tail: self.tail.wrapping_add(other.tail),
        }
    }
}
