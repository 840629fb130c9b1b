//! Recorders of a run, instruction by instruction.
ghost use Rattle.std.specs.Prelude.{◌≡◌, ◌∷◌, ◌++◌, [], List, IfErr, OnOk};
ghost use Rattle.rv_model.specs.step.Hart.{HartState, ends_after};
ghost use Rattle.rv_model.specs.step.Step.{step};
ghost use Rattle.recording.specs.Machines.{state_of};
ghost use Rattle.recording.specs.declared.fault.RecordFault.{RecordFault};

use crate::fault::RecordFault;
use crate::machine::SingleUserMachine;
use rv_model::StepEnd;
use vector_memory::UserBytes;

/// A recorder of a run. It reads the state before each instruction, and then the state after it.
pub trait Recorder<M: UserBytes> {
    // The instructions executed from these states were recorded between two states of the recorder.
    ghost recorded: { Self → List HartState → Self → Type 0 };

    // The state before an instruction was saved between them.
    ghost prepared: { Self → HartState → Self → Type 0 };

    // A call that left the recorder in this state may have failed with this fault.
    ghost failed: { Self → RecordFault → Type 0 };

    /// Save the state before an instruction. Fails if the recorder can't record it.
    fn before_step(&mut self, machine: &SingleUserMachine<M>) -> Result<(), RecordFault>
        ensures prepared { OnOk result (prepared self.old (state_of M.memory machine.now) self.new) }
        ensures failed { IfErr result (failed self.new) };

    /// Record the instruction since the last saved state, from the state after it, its end and its ticks. Fails if the
    /// recorder can't record it.
    fn after_step(
        &mut self,
        machine: &SingleUserMachine<M>,
        end: StepEnd,
        ticks: usize,
    ) -> Result<(), RecordFault>
        ensures recorded { OnOk result ((before : Self) (found : HartState) → prepared before found self.old
            → step 256 found ≡ ends_after ticks end (state_of M.memory machine.now)
            → recorded before (found ∷ []) self.new) }
        ensures failed { IfErr result (failed self.new) };

    // A law: an unchanged recorder has recorded no instruction.
    ghost recorded_none: { (r : Self) → recorded r [] r };

    // A law: two consecutive records are one record of all their instructions.
    ghost recorded_more: { (a b c : Self) (xs ys : List HartState) → recorded a xs b → recorded b ys c
        → recorded a (xs ++ ys) c };
}
