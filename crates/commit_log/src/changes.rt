//! Control registers that changed.
ghost use Rattle.std.specs.Prelude.{◌≡◌, ◌==◌, ◌+◌, ◌≤◌, ◌++◌, [], ◌∷◌, ℕ, flat_map, length, if◌then◌else◌};
ghost use Rattle.rv_model.specs.declared.vector.state.VState.{VState};
ghost use Rattle.commit_log.specs.Finds.{KeepsControls};
ghost use Rattle.commit_log.specs.Lines.{printed_controls};
ghost use Rattle.commit_log.specs.LineTexts.{control_head, control_text};

use crate::numbers::push_hex16;
use crate::pre_state::PreState;
use crate::text::{TEXT_SIZE, Text};
use rv_model::{ControlRegister, VState};
use vtype_rules::vtype_number;

/// Return the text before the value of a control register that a line may name.
#[inline(always)]
fn control_head(register: ControlRegister) -> &'static [u8]
    ensures value { result.now ≡ control_head register }
    ensures short { length result.now ≤ 15 }
{
    match register {
        ControlRegister::Vstart => b" c8_vstart 0x",
        ControlRegister::Vxsat => b" c9_vxsat 0x",
        ControlRegister::Vxrm => b" c10_vxrm 0x",
        ControlRegister::Vcsr => b" c15_vcsr 0x",
        ControlRegister::Vl => b" c3104_vl 0x",
        ControlRegister::Vtype => b" c3105_vtype 0x",
        ControlRegister::Vlenb => b" c3106_vlenb 0x",
    }
}

/// Append a control register and its value, if the value changed.
#[inline(always)]
fn push_control(text: &mut Text, register: ControlRegister, old: u64, new: u64)
    requires { length text.old + 31 ≤ TEXT_SIZE }
    ensures text { text.new ≡ text.old
        ++ flat_map control_text (if old == new then [] else (register, new) ∷ []) }
    ensures bound { length text.new ≤ length text.old + 31 }
{
    if old != new {
        text.push(control_head(register));
        push_hex16(text, new);
    }
}

/// Append the control registers that an instruction changed, in the order of their numbers.
#[inline(always)]
pub(crate) fn push_changes(text: &mut Text, found: &PreState, state: &VState)
    requires { length text.old + 155 ≤ TEXT_SIZE }
    ensures text { (old : VState) → KeepsControls old found.now
        → text.new ≡ text.old ++ flat_map control_text (printed_controls old state.now) }
    ensures bound { length text.new ≤ length text.old + 155 }
{
    let (old, new) = (u64::from(found.vstart), u64::from(state.vstart));
    push_control(text, ControlRegister::Vstart, old, new);
    let (old, new) = (u64::from(found.vxsat), u64::from(state.vxsat));
    push_control(text, ControlRegister::Vxsat, old, new);
    let (old, new) = (found.vxrm.number(), state.vxrm.number());
    push_control(text, ControlRegister::Vxrm, u64::from(old), u64::from(new));
    let (old, new) = (found.conf.vl(), state.conf.vl());
    push_control(text, ControlRegister::Vl, u64::from(old), u64::from(new));
    let (old, new) = (found.conf.vtype(), state.conf.vtype());
    push_control(
        text,
        ControlRegister::Vtype,
        vtype_number(old),
        vtype_number(new),
    );
}
