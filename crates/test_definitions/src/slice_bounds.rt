//! Laws of the number of instructions and ticks of slices and lines.
ghost use Rattle.test_definitions.specs.SliceBounds.{GrantsAreBounded, LinesAreBounded};
ghost use Rattle.test_definitions.specs.SliceBounds.{OnlyStopsEndSlices, OperatorLinesAreBounded};
ghost use Rattle.test_definitions.specs.SliceBounds.{SlicesAreAThousand, SlicesTakeTheirTicks};

/// A slice takes at most its ticks, and all of them if the program doesn't stop. `* slices N`, N from 1 to 1,000, grants
/// at most N slices, so it takes at most N times the ticks of a slice. No line tries more than 1,000,000 instructions.
pub fn slices_are_bounded()
    ensures slices { SlicesTakeTheirTicks }
    ensures stops { OnlyStopsEndSlices }
    ensures grants { GrantsAreBounded }
    ensures numbers { SlicesAreAThousand }
    ensures operator { OperatorLinesAreBounded }
    ensures lines { LinesAreBounded }
{}
