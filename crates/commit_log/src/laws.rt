//! Laws of the state that results from a line.
ghost use Rattle.commit_log.specs.Printed.{ControlsArePrinted, MemoryIsPrinted, ScalarsArePrinted, VectorsArePrinted};

/// Laws of lines: applied to the state before an instruction, the instruction's line gives the state after the definitions' step. There is
/// one law each for scalar registers, control registers, memory and vector registers.
pub fn line_laws()
    ensures scalars { ScalarsArePrinted }
    ensures controls { ControlsArePrinted }
    ensures memory { MemoryIsPrinted }
    ensures vectors { VectorsArePrinted }
{}
