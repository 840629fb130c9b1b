//! Ends of instructions other than `StepEnd::Ran`.
ghost use Rattle.std.specs.Prelude.{◌≡◌};
ghost use Rattle.rv_model.specs.machine.UserMachine.{stop_of};
ghost use Rattle.hart.specs.States.{end_by, ticks_by};

use rv_model::{StepEnd, Stop};

/// Return why an instruction's end stops the program; `None` if the program doesn't stop.
pub fn stop_of(end: StepEnd) -> Option<Stop>
    ensures { result ≡ stop_of end }
{
    match end {
        StepEnd::Ran | StepEnd::Cut => None,
        StepEnd::Exit(status) => Some(Stop::Exit(status)),
        StepEnd::Ebreak => Some(Stop::Ebreak),
        StepEnd::Fault { cause, value, .. } => Some(Stop::Fault { cause, value }),
        StepEnd::OutputFull => Some(Stop::OutputFull),
    }
}

/// End and ticks of an instruction with an end other than `StepEnd::Ran`. The function of an instruction that
/// ran returns its ticks, at least 1, and leaves this unchanged; the function of any other instruction
/// returns 0. If each function returned one value instead, the end would be written to memory and read again.
/// That costs 4 more machine instructions for `add`, and 17 for `vadd.vv`.
#[derive(Clone, Copy)]
pub struct Ending {
    pub end: StepEnd,
    pub ticks: usize,
}

impl Ending {
    /// Return an ending before the first instruction.
    pub fn new() -> Ending {
        Ending {
            end: StepEnd::Ran,
            ticks: 1,
        }
    }

    /// Save how an instruction ended and the ticks that it took, and return 0.
    #[tactic(auto, unfolding(crate::specs::States::end_by, crate::specs::States::ticks_by))]
    #[inline(always)]
    pub(crate) fn set(&mut self, end: StepEnd, ticks: usize) -> usize
        ensures end { end_by result self.new ≡ end }
        ensures ticks { ticks_by result self.new ≡ ticks }
    {
        self.end = end;
        self.ticks = ticks;
        0
    }

    /// Return the one tick of an instruction that ran. For any other end, save the end and one tick, and
    /// return 0.
    #[tactic(auto, unfolding(crate::specs::States::end_by, crate::specs::States::ticks_by))]
    #[inline(always)]
    pub(crate) fn in_one_tick(&mut self, end: StepEnd) -> usize
        ensures end { end_by result self.new ≡ end }
        ensures ticks { ticks_by result self.new ≡ 1 }
    {
        match end {
            StepEnd::Ran => 1,
            _ => self.set(end, 1),
        }
    }

    /// Return the end and the ticks of the instruction whose function returned `ticks`.
    #[tactic(auto, using(crate::proofs::Endings::took_ticks, crate::proofs::Endings::set_ticks))]
    #[inline(always)]
    pub fn unpack(&self, ticks: usize) -> (StepEnd, usize)
        ensures end { result.0 ≡ end_by ticks self.now }
        ensures ticks { result.1 ≡ ticks_by ticks self.now }
    {
        if ticks > 0 {
            (StepEnd::Ran, ticks)
        } else {
            (self.end, self.ticks)
        }
    }
}
