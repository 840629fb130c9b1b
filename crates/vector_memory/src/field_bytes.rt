//! The bytes of one field. Each size of an element is a constant in its own call, so that the compiler moves
//! the element at once.
ghost use Rattle.std.specs.Prelude.{◌≡◌, ◌↔◌, ◌+◌, ◌≤◌, true, IsOk, IfErr, OnOk, OnErr};
ghost use Rattle.std.specs.Simd.Lanes.{chunk, put_chunk};
ghost use Rattle.rv_model.specs.declared.memory.Access.TheVariants.{Load, Store};
ghost use Rattle.rv_model.specs.memory.Memory.{bytes_at, can_access, put_bytes};

use crate::user_bytes::UserBytes;
use rv_model::{Access, FILE_BYTES, Fault, VFile};

/// Load `size` bytes to a place in the register file, if each may be loaded.
#[inline(always)]
fn load_part<M: UserBytes>(
    memory: &M,
    address: u64,
    place: usize,
    size: usize,
    file: &mut VFile,
) -> Result<(), Fault>
    requires { place + size ≤ FILE_BYTES }
    ensures ok { IsOk result ↔ (can_access Load (M.memory memory.now) address size ≡ true) }
    ensures fault { IfErr result (λ fault. fault.addr ≡ address) }
    ensures value { OnOk result (file.new ≡ put_chunk place file.old (bytes_at (M.memory memory.now) address size)) }
    ensures unchanged { OnErr result (file.new ≡ file.old) }
{
    let bytes = file.part_mut(place, place + size);
    memory.read(address, Access::Load, bytes)
}

/// Load a field as `load_part` does, with constant sizes of 1, 2, 4 and 8 bytes.
#[inline(always)]
pub(crate) fn load_bytes<M: UserBytes>(
    memory: &M,
    address: u64,
    place: usize,
    size: usize,
    file: &mut VFile,
) -> Result<(), Fault>
    requires { place + size ≤ FILE_BYTES }
    ensures ok { IsOk result ↔ (can_access Load (M.memory memory.now) address size ≡ true) }
    ensures fault { IfErr result (λ fault. fault.addr ≡ address) }
    ensures value { OnOk result (file.new ≡ put_chunk place file.old (bytes_at (M.memory memory.now) address size)) }
    ensures unchanged { OnErr result (file.new ≡ file.old) }
{
    match size {
        1 => load_part(memory, address, place, 1, file),
        2 => load_part(memory, address, place, 2, file),
        4 => load_part(memory, address, place, 4, file),
        8 => load_part(memory, address, place, 8, file),
        _ => load_part(memory, address, place, size, file),
    }
}

/// Store `size` bytes from a place in the register file, if each may be stored.
#[inline(always)]
pub(crate) fn store_bytes<M: UserBytes>(
    file: &VFile,
    place: usize,
    size: usize,
    address: u64,
    memory: &mut M,
) -> Result<(), Fault>
    requires { place + size ≤ FILE_BYTES }
    ensures ok { IsOk result ↔ (can_access Store (M.memory memory.old) address size ≡ true) }
    ensures fault { IfErr result (λ fault. fault.addr ≡ address) }
    ensures value { OnOk result
        (M.memory memory.new ≡ put_bytes (M.memory memory.old) address (chunk place size file.now)) }
    ensures others { OnOk result (memory.new ≡ M.with_memory memory.old (M.memory memory.new)) }
    ensures unchanged { OnErr result (memory.new ≡ memory.old) }
{
    match size {
        1 => memory.write(address, Access::Store, file.part(place, place + 1)),
        2 => memory.write(address, Access::Store, file.part(place, place + 2)),
        4 => memory.write(address, Access::Store, file.part(place, place + 4)),
        8 => memory.write(address, Access::Store, file.part(place, place + 8)),
        _ => memory.write(address, Access::Store, file.part(place, place + size)),
    }
}
