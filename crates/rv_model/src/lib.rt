//! Definitions that the contracts of the monitor use, and the types in these definitions.
#![tactic(auto)]

pub mod assembler;
mod commands;
mod images;
pub mod instructions;
mod legality;
mod machine;
mod memory;
mod scalar;
mod step;
pub mod text;
mod vector;

pub use commands::{
    BreakpointCommand, ByteString, Cmd, Count, EnteringCommand, LinePart, MemoryCommand,
    OperatorCommand, PageRange, ProgramCommand, Refusal, RegisterCommand, RunningCommand,
};
pub use images::{ElfFault, ProgramHeader, images_hold_cells};
pub use instructions::{
    AccessInstr, Arith, ArithOperation, Carry, CsrInstr, Field, Instr, Reg, ScalarInstr, Source,
    VReg, VectorInstr,
};
pub use legality::{Content, Operand, Role, Shape};
pub use machine::{
    RunState, Stats, USER_COUNT, User, absent_users_have_nothing, each_user_alone,
    others_can_be_purged, output_only_grows, preserved_configurations, preserved_registers,
    refusals_change_nothing, slices_add_up, small_scripts_print, turns_are_fair,
};
pub use memory::{
    ADDRESS_END, Access, FRAME_COUNT, Fault, MapRefusal, PAGE_QUOTA, PAGE_SIZE, Permissions,
    memory_laws,
};
pub use scalar::Scalar;
pub use step::{
    Cause, MemEnd, OUTPUT_SIZE, StepEnd, Stop, VEnd, WRITE_SIZE, bytes_of_transfers,
    instructions_resume, legal_instructions_execute, loads_and_stores_resume, steps_keep_others,
    steps_take_ticks, steps_write_one_register, ticks_and_cuts,
};
pub use vector::{
    ControlRegister, FILE_BYTES, GROUP_BYTES, Lmul, Policy, RegisterBytes, RequestedLength,
    RoundingMode, Seat, Sew, VConf, VECTOR_REGISTERS, VFile, VLENB, VState, VType, VectorRequest,
};
