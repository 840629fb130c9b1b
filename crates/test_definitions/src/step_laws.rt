//! Laws of steps of vector instructions.
ghost use Rattle.test_definitions.specs.StepLaws.{AccessesExist, IllegalStepsFault};
ghost use Rattle.test_definitions.specs.StepLaws.{LegalStepsExecute, OperationsHaveEquations};
ghost use Rattle.test_definitions.specs.StepLaws.{OperationsHaveTypes, OthersHaveEquations};

/// A legal vector instruction never faults as an illegal one, and one that isn't legal always does. The other clauses
/// show for each equation of the definition that is for all other cases that no legal instruction reaches it.
pub fn vector_steps_by_legality()
    ensures legal { LegalStepsExecute }
    ensures illegal { IllegalStepsFault }
    ensures operations { OperationsHaveEquations }
    ensures types { OperationsHaveTypes }
    ensures accesses { AccessesExist }
    ensures others { OthersHaveEquations }
{}
