//! Loads and stores (Unprivileged ISA 20191213, sections 2.6 and 5.3). If the fast path of the user's memory
//! finds their bytes, they are executed inline, with one lookup for all widths.
ghost use Rattle.std.specs.Prelude.{◌≡◌, ℕ, ◌*◌, ◌%◌, ◌^◌, ◌<◌, ◌≤◌, ◌↔◌, IsOk, IfErr, OnOk, Ok, Err, true};
ghost use Rattle.std.specs.Prelude.{false, if◌then◌else◌, length, slice_index};
ghost use Rattle.std.specs.Int.{byte_len, from_le_bytes, to_le_bytes, w64};
ghost use Rattle.rv_model.specs.declared.memory.Access.TheVariants.{Load, Store};
ghost use Rattle.rv_model.specs.scalar.LoadsAndStores.{extended, load_width, number_at, store_width};
ghost use Rattle.rv_model.specs.scalar.Arithmetic.{sum};
ghost use Rattle.rv_model.specs.memory.Memory.{bytes_at, can_access, put_bytes};
ghost use Rattle.rv_model.specs.step.ScalarStep.{load_step, store_step};
ghost use Rattle.hart.specs.States.{LeadsScalar};

use crate::faults::fault;
use crate::retirement::{retire, write_rd};
use rv_model::instructions::operations::{LoadOp, StoreOp};
use rv_model::{Access, Cause, Fault, Reg, Scalar, StepEnd};
use scalar_core::sign_extend;
use vector_memory::UserBytes;

/// Return the address of a load or store, from a register and an immediate that is sign-extended to 64 bits.
#[inline(always)]
pub(crate) fn access_address(base: u64, immediate: u64) -> u64
    ensures { result ≡ sum w64 base immediate }
{
    base.wrapping_add(immediate)
}

/// Return the number of bytes that a load reads: 1, 2, 4 or 8.
fn load_len(op: LoadOp) -> usize
    ensures len { result ≡ byte_len (load_width op) }
    ensures few { result ≤ 8 }
{
    match op {
        LoadOp::Lb | LoadOp::Lbu => 1,
        LoadOp::Lh | LoadOp::Lhu => 2,
        LoadOp::Lw | LoadOp::Lwu => 4,
        LoadOp::Ld => 8,
    }
}

/// Return the 64-bit value of a load, from the little-endian number of the eight bytes at its address.
#[inline(always)]
fn extend(op: LoadOp, number: u64) -> u64
    ensures { result ≡ extended op (number % 2 ^ (8 * byte_len (load_width op))) }
{
    match op {
        LoadOp::Lb => sign_extend(8, number % (1 << 8)),
        LoadOp::Lh => sign_extend(16, number % (1 << 16)),
        LoadOp::Lw => sign_extend(32, number % (1 << 32)),
        LoadOp::Ld => number,
        LoadOp::Lbu => number % (1 << 8),
        LoadOp::Lhu => number % (1 << 16),
        LoadOp::Lwu => number % (1 << 32),
    }
}

/// Return the 64-bit value of a load, from the eight bytes at its address.
#[inline(always)]
fn loaded(op: LoadOp, bytes: &[u8; 8]) -> u64
    ensures { result ≡ extended op (from_le_bytes (load_width op) bytes.now) }
{
    extend(op, u64::from_le_bytes(*bytes))
}

/// Read the first `len` of eight bytes, without the fast path.
fn read_first<M: UserBytes>(
    memory: &M,
    addr: u64,
    len: usize,
    bytes: &mut [u8; 8],
) -> Result<(), Fault>
    requires { len ≤ 8 }
    ensures ok { IsOk result ↔ (can_access Load (M.memory memory.now) addr len ≡ true) }
    ensures fault { IfErr result (λ fault. fault.addr ≡ addr) }
    ensures value { OnOk result ((i : ℕ) → i < len
        → slice_index bytes.new i ≡ slice_index (bytes_at (M.memory memory.now) addr len) i) }
{
    memory.read(addr, Access::Load, &mut bytes[..len])
}

/// Return the value of a load, without the fast path.
#[inline(never)]
fn load_slow<M: UserBytes>(op: LoadOp, addr: u64, memory: &M) -> Result<u64, Fault>
    ensures { result ≡ (if can_access Load (M.memory memory.now) addr (byte_len (load_width op))
        then Ok (extended op (number_at (load_width op) (M.memory memory.now) addr))
        else Err (record { addr = addr })) }
{
    let mut bytes = [0; 8];
    read_first(memory, addr, load_len(op), &mut bytes)?;
    Ok(loaded(op, &bytes))
}

/// Set `value` to the value of a load. Return whether its bytes may be read. The fast path looks up eight
/// bytes for each width.
#[inline(always)]
fn load_value<M: UserBytes>(op: LoadOp, addr: u64, memory: &M, value: &mut u64) -> bool
    ensures allowed { result ≡ can_access Load (M.memory memory.now) addr (byte_len (load_width op)) }
    ensures value { result ≡ true
        → value.new ≡ extended op (number_at (load_width op) (M.memory memory.now) addr) }
{
    let mut bytes = [0; 8];
    if memory.try_read(addr, Access::Load, &mut bytes) {
        *value = loaded(op, &bytes);
        return true;
    }
    match load_slow(op, addr, memory) {
        Ok(found) => {
            *value = found;
            true
        }
        Err(_) => false,
    }
}

/// Execute a load; it faults if one of its bytes may not be read.
#[inline(always)]
pub(crate) fn load<M: UserBytes>(
    op: LoadOp,
    rd: Reg,
    addr: u64,
    scalar: &mut Scalar,
    memory: &M,
) -> StepEnd
    ensures model { LeadsScalar (load_step op rd addr)
        scalar.old (M.memory memory.now) scalar.new (M.memory memory.now) result }
{
    let mut value = 0;
    if !load_value(op, addr, memory, &mut value) {
        return fault(Cause::LoadAccess, addr, scalar);
    }
    write_rd(rd, value, scalar)
}

/// Return the bytes that a store writes, from the eight bytes of a register.
#[inline(always)]
fn stored(op: StoreOp, bytes: &[u8; 8]) -> &[u8]
    ensures len { length result.now ≡ byte_len (store_width op) }
    ensures value { (value : ℕ) → bytes.now ≡ to_le_bytes w64 value → result.now ≡ to_le_bytes (store_width op) value }
{
    match op {
        StoreOp::Sb => &bytes[..1],
        StoreOp::Sh => &bytes[..2],
        StoreOp::Sw => &bytes[..4],
        StoreOp::Sd => &bytes[..8],
    }
}

/// Store the low bytes of a value, without the fast path. Return whether they were stored; if not, nothing
/// changes.
#[inline(never)]
fn store_slow<M: UserBytes>(op: StoreOp, addr: u64, value: u64, memory: &mut M) -> bool
    ensures allowed { result ≡ can_access Store (M.memory memory.old) addr (byte_len (store_width op)) }
    ensures value { result ≡ true → M.memory memory.new
        ≡ put_bytes (M.memory memory.old) addr (to_le_bytes (store_width op) value) }
    ensures others { result ≡ true → memory.new ≡ M.with_memory memory.old (M.memory memory.new) }
    ensures unchanged { result ≡ false → memory.new ≡ memory.old }
{
    let bytes = value.to_le_bytes();
    match memory.write(addr, Access::Store, stored(op, &bytes)) {
        Ok(()) => true,
        Err(_) => false,
    }
}

/// Store the low bytes of a value. Return whether they were stored; if not, nothing changes.
#[inline(always)]
fn store_value<M: UserBytes>(op: StoreOp, addr: u64, value: u64, memory: &mut M) -> bool
    ensures allowed { result ≡ can_access Store (M.memory memory.old) addr (byte_len (store_width op)) }
    ensures value { result ≡ true → M.memory memory.new
        ≡ put_bytes (M.memory memory.old) addr (to_le_bytes (store_width op) value) }
    ensures others { result ≡ true → memory.new ≡ M.with_memory memory.old (M.memory memory.new) }
    ensures unchanged { result ≡ false → memory.new ≡ memory.old }
{
    let bytes = value.to_le_bytes();
    if memory.try_write(addr, Access::Store, stored(op, &bytes)) {
        return true;
    }
    store_slow(op, addr, value, memory)
}

/// Execute a store of the low bytes of a value; it faults if one of its bytes may not be written.
#[inline(always)]
pub(crate) fn store<M: UserBytes>(
    op: StoreOp,
    addr: u64,
    value: u64,
    scalar: &mut Scalar,
    memory: &mut M,
) -> StepEnd
    ensures model { LeadsScalar (store_step op addr value)
        scalar.old (M.memory memory.old) scalar.new (M.memory memory.new) result }
    ensures memory { memory.new ≡ M.with_memory memory.old (M.memory memory.new) }
{
    if !store_value(op, addr, value, memory) {
        return fault(Cause::StoreAccess, addr, scalar);
    }
    retire(scalar)
}
