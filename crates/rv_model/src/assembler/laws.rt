//! A law about assembler text, as the contract of a function with an empty body.
ghost use Rattle.rv_model.specs.assembler.Operands.{SlotsHoldOperands};

/// The operands of an instruction's text are its fields in the manual's order, each of the right kind.
pub fn operands_of_instructions()
    ensures { SlotsHoldOperands }
{}
