//! The state before an instruction that its counts depend on.
ghost use Rattle.std.specs.Prelude.{◌≡◌, false, true};
ghost use Rattle.rv_model.specs.vector.Groups.{register_of};
ghost use Rattle.recording.specs.Classes.{is_plain, is_unmasked};
ghost use Rattle.recording.specs.PreState.{Finds};

use crate::class::Class;
use reg_groups::mask_register;
use rv_model::{VConf, VLENB, VState};

/// The state before an instruction that isn't plain: its address, vl and the vector type, vstart, and v0 if it is
/// masked.
#[derive(Clone, Copy)]
pub(crate) struct PreState {
    pub pc: u64,
    pub conf: VConf,
    pub start: usize,
    pub mask: [u8; VLENB],
}

/// Return whether the instructions of a class have neither elements nor a link.
#[inline(always)]
pub(crate) fn is_plain(class: Class) -> bool
    ensures { result ≡ is_plain class }
{
    matches!(class, Class::Plain)
}

/// Return whether the instructions of a class are masked.
#[inline(always)]
fn is_masked(class: Class) -> bool
    ensures { is_unmasked class ≡ false → result ≡ true }
{
    matches!(class, Class::Length { unmasked: false })
}

/// Copy v0 to the mask.
#[inline(never)]
fn copy_mask(mask: &mut [u8; VLENB], state: &VState)
    ensures { mask.new ≡ register_of state.now.file 0 }
{
    *mask = mask_register(&state.file);
}

impl PreState {
    /// Return a placeholder for the time before the first instruction.
    #[inline(always)]
    pub(crate) fn none() -> PreState {
        PreState {
            pc: 0,
            conf: VConf::vill(),
            start: 0,
            mask: [0; VLENB],
        }
    }

    /// Save the state before an instruction, unless its class is plain.
    #[inline(always)]
    pub(crate) fn capture(&mut self, class: Class, pc: u64, state: &VState)
        ensures { is_plain class ≡ false → Finds class pc state.now self.new }
    {
        if is_plain(class) {
            return;
        }
        self.pc = pc;
        self.conf = state.conf;
        self.start = usize::from(state.vstart);
        if is_masked(class) {
            copy_mask(&mut self.mask, state);
        }
    }
}
