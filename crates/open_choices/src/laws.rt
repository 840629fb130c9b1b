//! Laws about steps with choices.
ghost use Rattle.open_choices.specs.Fills.{AllChosen, ChosenIsOpen, NoneChosen};
ghost use Rattle.open_choices.specs.SeedLaws.{SameLength, SeededIsOpen, ZeroIsStep};
ghost use Rattle.open_choices.specs.OpenStep.{FilledStepIsOpen, OtherLengthIsOpen, StepIsOpen, TrimmedStepIsOpen};

/// The standard allows a step without choices, and one with the registers that the policy `ones` leaves; a fault-only-first
/// load that leaves a shorter length, and any active elements from there on; and another length of a vset instruction
/// whose AVL is between VLMAX and twice it.
pub fn open_steps()
    ensures step { StepIsOpen }
    ensures filled { FilledStepIsOpen }
    ensures trimmed { TrimmedStepIsOpen }
    ensures length { OtherLengthIsOpen }
{}

/// Ones in any of the elements that the policy `ones` fills, written after the step of a vector operation, are choices
/// that the standard allows. Without any, the state is that of the step; with all, the
/// registers are those under the policy `ones`.
pub fn overlays_are_open()
    ensures chosen { ChosenIsOpen }
    ensures none { NoneChosen }
    ensures all { AllChosen }
{}

/// The standard allows each state with the choices of a seed. Seed 0 leaves that of the step. Two vset instructions with
/// the same AVL and VLMAX at which a seed chooses get the same length.
pub fn seeds_are_open()
    ensures seeded { SeededIsOpen }
    ensures zero { ZeroIsStep }
    ensures length { SameLength }
{}
