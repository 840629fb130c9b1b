//! Copies of registers and groups, for operations whose destination may overlap a source ("V" Vector Extension 1.0,
//! sections 5.2 and 5.3).
ghost use Rattle.std.specs.Prelude.{◌≡◌, ◌+◌, ◌*◌, ◌≤◌, length};
ghost use Rattle.rv_model.specs.vector.Groups.{group_of, register_of, registers, with_group};

use crate::groups::{group, group_mut, registers};
use rv_model::{GROUP_BYTES, VECTOR_REGISTERS, VFile, VLENB, VReg};

/// Return a copy of the `VLENB` bytes of a register.
pub fn register_copy(file: &VFile, register: VReg) -> [u8; VLENB]
    ensures { result ≡ register_of file.now register }
{
    let mut copy = [0; VLENB];
    copy.copy_from_slice(file.register(register));
    copy
}

/// Return a copy of the `VLENB` bytes of v0.
pub fn mask_register(file: &VFile) -> [u8; VLENB]
    ensures { result ≡ register_of file.now 0 }
{
    register_copy(file, VReg::new(0))
}

/// The number of bytes in two registers.
const TWO_REGISTERS: usize = 2 * VLENB;

/// Copy `N` bytes. `N` is a constant, so that the compiler inlines the copy.
#[inline(always)]
fn copy_known<const N: usize>(from: &[u8], to: &mut [u8])
    requires from { length from.now ≡ N }
    requires to { length to.old ≡ N }
    ensures { to.new ≡ from.now }
{
    to[..N].copy_from_slice(&from[..N]);
}

/// Copy the bytes of a group. The copies of one or two registers are inlined.
#[inline(always)]
fn copy_bytes(from: &[u8], to: &mut [u8])
    requires length { length from.now ≡ length to.old }
    ensures { to.new ≡ from.now }
{
    if from.len() == VLENB {
        copy_known::<VLENB>(from, to);
    } else if from.len() == TWO_REGISTERS {
        copy_known::<TWO_REGISTERS>(from, to);
    } else {
        to.copy_from_slice(from);
    }
}

/// Copy the bytes of a group to the start of `copy`, and return them for writing; `emul` is the group's multiplier
/// in eighths of a register.
#[inline(always)]
pub fn group_copy_mut<'a>(
    file: &VFile,
    first: VReg,
    emul: u32,
    copy: &'a mut [u8; GROUP_BYTES],
) -> &'a mut [u8]
    requires inside { first + registers emul ≤ VECTOR_REGISTERS }
    requires most { emul ≤ 64 }
    ensures value { result.now ≡ group_of file.now first emul }
    ensures len { length result.now ≡ VLENB * registers emul }
{
    let copied = &mut copy[..VLENB * registers(emul) as usize];
    copy_bytes(group(file, first, emul), copied);
    copied
}

/// Copy the bytes of a group to the start of `copy`, and return them; `emul` is the group's multiplier in eighths
/// of a register.
pub fn group_copy<'a>(
    file: &VFile,
    first: VReg,
    emul: u32,
    copy: &'a mut [u8; GROUP_BYTES],
) -> &'a [u8]
    requires inside { first + registers emul ≤ VECTOR_REGISTERS }
    requires most { emul ≤ 64 }
    ensures value { result.now ≡ group_of file.now first emul }
    ensures len { length result.now ≡ VLENB * registers emul }
{
    let bytes = group(file, first, emul);
    let copied = &mut copy[..bytes.len()];
    copied.copy_from_slice(bytes);
    copied
}

/// Write `bytes` to a group; `emul` is the group's multiplier in eighths of a register.
#[inline(always)]
pub fn put_group(file: &mut VFile, first: VReg, emul: u32, bytes: &[u8])
    requires inside { first + registers emul ≤ VECTOR_REGISTERS }
    requires length { length bytes.now ≡ VLENB * registers emul }
    ensures { file.new ≡ with_group file.old first bytes.now }
{
    copy_bytes(bytes, group_mut(file, first, emul));
}
