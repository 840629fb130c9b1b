//! Instructions that read and write control registers (Unprivileged ISA 20191213, chapter 9, "Zicsr"). All
//! these registers are part of the vector extension.
ghost use Rattle.std.specs.Prelude.{◌≡◌};
ghost use Rattle.rv_model.specs.vector.Control.{control_value, csr_form, is_write, with_control, written_value};

use rv_model::instructions::operations::{CsrImmediateOp, CsrOp};
use rv_model::{ControlRegister, RoundingMode, VState};
use vtype_rules::vtype_number;

// The number of bytes of a vector register.
const VLENB: u64 = 32;

/// Return the value of a control register.
pub(crate) fn read(register: ControlRegister, state: &VState) -> u64
    ensures { result ≡ control_value register state.now }
{
    match register {
        ControlRegister::Vstart => u64::from(state.vstart),
        ControlRegister::Vxsat => u64::from(state.vxsat),
        ControlRegister::Vxrm => u64::from(state.vxrm.number()),
        ControlRegister::Vcsr => u64::from(state.vxsat) + 2 * u64::from(state.vxrm.number()),
        ControlRegister::Vl => u64::from(state.conf.vl()),
        ControlRegister::Vtype => vtype_number(state.conf.vtype()),
        ControlRegister::Vlenb => VLENB,
    }
}

/// Write the bits that a control register has; a read-only register is unchanged.
pub(crate) fn write(register: ControlRegister, value: u64, state: &mut VState)
    ensures { state.new ≡ with_control register value state.old }
{
    match register {
        ControlRegister::Vstart => state.vstart = (value % 256) as u8,
        ControlRegister::Vxsat => state.vxsat = value % 2 == 1,
        ControlRegister::Vxrm => state.vxrm = RoundingMode::with_number(value),
        ControlRegister::Vcsr => {
            state.vxsat = value % 2 == 1;
            state.vxrm = RoundingMode::with_number(value / 2);
        }
        ControlRegister::Vl | ControlRegister::Vtype | ControlRegister::Vlenb => {}
    }
}

/// Return the value that an instruction writes, from the value that it read and its operand.
pub(crate) fn written_value(op: CsrOp, old: u64, operand: u64) -> u64
    ensures { result ≡ written_value op old operand }
{
    match op {
        CsrOp::Csrrw => operand,
        CsrOp::Csrrs => old | operand,
        CsrOp::Csrrc => old & !operand,
    }
}

/// Return whether an instruction writes; `source` is the number of its source register, or its immediate.
pub(crate) fn is_write(op: CsrOp, source: u32) -> bool
    ensures { result ≡ is_write op source }
{
    match op {
        CsrOp::Csrrw => true,
        CsrOp::Csrrs | CsrOp::Csrrc => source != 0,
    }
}

/// Return the operation with a register operand that an operation with an immediate performs.
pub(crate) fn csr_form(op: CsrImmediateOp) -> CsrOp
    ensures { result ≡ csr_form op }
{
    match op {
        CsrImmediateOp::Csrrwi => CsrOp::Csrrw,
        CsrImmediateOp::Csrrsi => CsrOp::Csrrs,
        CsrImmediateOp::Csrrci => CsrOp::Csrrc,
    }
}
