//! Laws about vector loads and stores that stop before their end, and about the ticks of steps.
ghost use Rattle.std.specs.Prelude.{Bool, None, ℕ};
ghost use Rattle.rv_model.specs.declared.instructions.access.AccessInstr.{AccessInstr};
ghost use Rattle.rv_model.specs.declared.instructions.instruction.Instr.{Instr};
ghost use Rattle.rv_model.specs.declared.scalar.Scalar.{Scalar};
ghost use Rattle.rv_model.specs.declared.vector.state.VState.{VState};
ghost use Rattle.rv_model.specs.accesses.Restarts.{AccessStopIndex, AccessesGoOn, LargerLimitIsSame, LaterIndicesUnchanged};
ghost use Rattle.rv_model.specs.accesses.Restarts.{OverlayIsEither, OverlayOfGrown, access_from};
ghost use Rattle.rv_model.specs.step.AccessChanges.{AccessesKeepOthers};
ghost use Rattle.rv_model.specs.step.Changes.{StepsKeepOthers};
ghost use Rattle.rv_model.specs.step.Effects.{LegalInstructionsExecute};
ghost use Rattle.rv_model.specs.step.Resumes.{InstructionsGoOn, StepsGoOn};
ghost use Rattle.rv_model.specs.step.Step.{fetched, step, vector_step};
ghost use Rattle.rv_model.specs.step.Targets.{WritesTarget};
ghost use Rattle.rv_model.specs.step.Ticks.{ScalarStepsTakeOneTick, TakesTicks};

/// A legal vector load or store that is cut or faults can be executed again, any number of times; pages may be mapped
/// and filled in between. Its result is that of an uninterrupted execution with these pages mapped from the start. The
/// reason is that a legal indexed load changes no index element that it still needs. A cut advances `vstart` by the
/// whole limit of indices, and a store leaves the registers unchanged.
pub fn loads_and_stores_resume()
    ensures indices { LaterIndicesUnchanged }
    ensures leaves { AccessStopIndex }
    ensures again { AccessesGoOn }
    ensures limit { (fill : Bool) (i : AccessInstr) (x : Scalar) (v : VState)
        → LargerLimitIsSame (access_from fill i x v) }
    ensures overlay { OverlayIsEither }
    ensures grown { OverlayOfGrown }
{}

/// The same law for a whole vector instruction, with its legality and its tail. An instruction that is cut or faults
/// leaves all but the vector state and the memory unchanged. Executed again, any number of times, it has the result of
/// the uninterrupted one, whose ticks are the sum of its parts' ticks if the parts are cut. The law also covers every
/// step that is cut or faults, with its fetch, except a vector store that has overwritten its own word before.
pub fn instructions_resume()
    ensures again { InstructionsGoOn }
    ensures step { (i : Instr) (word : ℕ) → StepsGoOn (λ ticks. vector_step ticks i word) (λ m pc. None) }
    ensures fetched { StepsGoOn step fetched }
{}

/// A vector instruction takes at least one tick, and at most those that are left. One that is cut takes all of them,
/// and the program counter stays on it. One that isn't cut has the same effect with more ticks left.
pub fn ticks_and_cuts()
    ensures { (i : Instr) (word : ℕ) → TakesTicks (λ limit. vector_step limit i word) }
{}

/// The same law for every step, with its fetch. A step without a vector instruction takes one tick and is never cut.
pub fn steps_take_ticks()
    ensures ticks { TakesTicks step }
    ensures scalar { ScalarStepsTakeOneTick }
{}

/// A step writes no scalar register except its instruction's destination and the program counter.
pub fn steps_write_one_register()
    ensures { WritesTarget }
{}

/// A step of a vector operation changes no byte of the vector registers outside its destination, and in the destination
/// no element outside `changes`. A step of a vector load or store changes no byte of the vector registers or of memory
/// outside its transfers and the tails that it fills. Both also hold if the instruction is illegal, faults or is cut.
pub fn steps_keep_others()
    ensures operations { StepsKeepOthers }
    ensures accesses { AccessesKeepOthers }
{}

/// A legal vector instruction is done, faults at memory or is cut, and never ends as an illegal one. The definitions of
/// one instruction have equations for instructions that no legal one reaches.
pub fn legal_instructions_execute()
    ensures { LegalInstructionsExecute }
{}
