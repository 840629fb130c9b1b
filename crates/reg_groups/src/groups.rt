//! The bytes of a group of vector registers ("V" Vector Extension 1.0, sections 3.1 and 3.4.2).
ghost use Rattle.std.specs.Prelude.{◌≡◌, ◌+◌, ◌*◌, ◌≤◌, length};
ghost use Rattle.std.specs.Borrow.{sem};
ghost use Rattle.rv_model.specs.vector.Groups.{group_of, registers};
ghost use Rattle.reg_groups.specs.GroupLending.{LendsGroup};

use rv_model::{FILE_BYTES, VECTOR_REGISTERS, VFile, VLENB, VReg};

/// Return the number of registers in a group, 1 to 8 for a legal multiplier. `emul` is the multiplier in eighths of
/// a register, as in each function here; a group with a multiplier below 1 has one register.
pub fn registers(emul: u32) -> u32
    ensures value { result ≡ registers emul }
    ensures some { 1 ≤ result }
{
    (emul / 8).max(1)
}

/// Return the bytes of a group, `VLENB` for each register.
pub fn group(file: &VFile, first: VReg, emul: u32) -> &[u8]
    requires inside { first + registers emul ≤ VECTOR_REGISTERS }
    ensures value { result.now ≡ group_of file.now first emul }
    ensures len { length result.now ≡ VLENB * registers emul }
{
    let start = VLENB * first.number() as usize;
    let length = VLENB * registers(emul) as usize;
    file.part(start, start + length)
}

/// Borrow the bytes of a group for writing, `VLENB` for each register.
pub fn group_mut(file: &mut VFile, first: VReg, emul: u32) -> &mut [u8]
    requires inside { first + registers emul ≤ VECTOR_REGISTERS }
    ensures* writes_back { sem 𝓛 (LendsGroup file.entry first result) }
    ensures value { result.now ≡ group_of file.old first emul }
    ensures len { length result.now ≡ VLENB * registers emul }
    ensures whole { length file.old ≡ FILE_BYTES }
{
    let start = VLENB * first.number() as usize;
    let length = VLENB * registers(emul) as usize;
    file.part_mut(start, start + length)
}
