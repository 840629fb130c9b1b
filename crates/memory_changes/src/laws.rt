//! Law of changes.
ghost use Rattle.memory_changes.specs.Changes.{LinesOfEach};

/// Law: the lines of a run contain the lines of each instruction, with its number and at its position.
pub fn lines_of_each()
    ensures { LinesOfEach }
{}
