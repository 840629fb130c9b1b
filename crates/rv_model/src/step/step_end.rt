//! The end of one instruction.
ghost use Rattle.std.specs.Prelude.{◌≡◌};
ghost use Rattle.rv_model.specs.step.Hart.{cause_number};

/// The cause of a fault (Privileged Architecture 20211203, section 4.1.8, "scause").
#[derive(Clone, Copy, Debug, PartialEq, Eq)]
pub enum Cause {
    /// A jump or branch to an address that isn't divisible by 4.
    MisalignedTarget,
    /// An instruction fetch that isn't allowed at each of its bytes.
    FetchAccess,
    /// A word that isn't an instruction, an illegal vector instruction, or an access to a control register that doesn't
    /// exist or is read-only.
    IllegalInstruction,
    /// A load that isn't allowed at each of its bytes.
    LoadAccess,
    /// A store that isn't allowed at each of its bytes.
    StoreAccess,
}

impl Cause {
    /// Return the number of the cause in `scause`.
    pub fn number(self) -> u8
        ensures { result ≡ cause_number self }
    {
        match self {
            Cause::MisalignedTarget => 0,
            Cause::FetchAccess => 1,
            Cause::IllegalInstruction => 2,
            Cause::LoadAccess => 5,
            Cause::StoreAccess => 7,
        }
    }
}

/// The end of one instruction.
#[derive(Clone, Copy, Debug, PartialEq, Eq)]
pub enum StepEnd {
    /// The instruction retires, and the next one follows.
    Ran,
    /// The program exits with this status.
    Exit(u8),
    /// The instruction is EBREAK, and the program stops at it.
    Ebreak,
    /// The instruction at `pc` faults; `value` is the address or the word that causes the fault.
    Fault { cause: Cause, pc: u64, value: u64 },
    /// The instruction is a write call and the output buffer has no room; the program stops at it.
    OutputFull,
    /// A tick limit cuts the vector load or store: the elements before `vstart` are complete, and the next execution
    /// continues with the rest.
    Cut,
}

/// The reason for a program's stop.
#[derive(Clone, Copy, Debug, PartialEq, Eq)]
pub enum Stop {
    /// A breakpoint is at the program counter.
    Breakpoint,
    /// An EBREAK instruction is at the program counter.
    Ebreak,
    /// The program exits with this status.
    Exit(u8),
    /// An instruction faults; `value` is the address or the word that causes the fault.
    Fault { cause: Cause, value: u64 },
    /// A write call is at the program counter, and the output buffer has no room.
    OutputFull,
}
