//! Sets a register of a machine.
ghost use Rattle.std.specs.Prelude.{◌≡◌};
ghost use Rattle.first_state.specs.RegisterFile.{state_with, with_setting};

use crate::setting::Setting;
use recording::SingleUserMachine;
use rv_model::VType;
use vector_memory::UserBytes;

/// Vector length, and a vector type for which it may be invalid.
#[derive(Clone, Copy)]
pub(crate) struct Lengths {
    pub(crate) vl: u16,
    pub(crate) vtype: Option<VType>,
}

/// Set a register. The vector length and type are separate from the machine because they needn't match yet.
pub(crate) fn lay<M: UserBytes>(
    machine: &mut SingleUserMachine<M>,
    lengths: &mut Lengths,
    setting: &Setting,
)
    ensures state { state_with M.memory machine.new lengths.new
        ≡ with_setting setting.now (state_with M.memory machine.old lengths.old) }
    ensures memory { machine.new.memory ≡ machine.old.memory }
{
    match setting {
        Setting::Scalar { register, value } => machine.scalar.write(*register, *value),
        Setting::Vector { register, bytes } => machine
            .vectors
            .seat
            .state
            .file
            .set_register(*register, bytes),
        Setting::Counter(addr) => machine.scalar.pc = *addr,
        Setting::Length(vl) => lengths.vl = *vl,
        Setting::Kind(vtype) => lengths.vtype = *vtype,
        Setting::Start(vstart) => machine.vectors.seat.state.vstart = *vstart,
        Setting::Rounding(mode) => machine.vectors.seat.state.vxrm = *mode,
        Setting::Saturation(flag) => machine.vectors.seat.state.vxsat = *flag,
    }
}
