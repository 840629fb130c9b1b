//! Laws about the counts.
ghost use Rattle.recording.specs.Laws.{AccessBody, OperationBody, RunsAsSteps};

/// Without breakpoints, a run equals the same number of the monitor's steps. The counted elements of a load or store
/// are those that it moves. Those of any other vector instruction are the ones on which the definition of its step
/// operates.
pub fn recording_laws()
    ensures steps { RunsAsSteps }
    ensures accesses { AccessBody }
    ensures operations { OperationBody }
{}
