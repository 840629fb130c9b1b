//! Vector loads and stores ("V" Vector Extension 1.0, chapter 7).
ghost use Rattle.std.specs.Prelude.{◌≡◌, ◌+◌, ◌*◌, ◌≤◌, [], ℕ, IfSome, IsTrue, Some, false, true};
ghost use Rattle.std.specs.Option.{option_map_or};
ghost use Rattle.rv_model.specs.accesses.AccessRuns.{access_run};
ghost use Rattle.rv_model.specs.accesses.Restarts.{AccessGoesOn};
ghost use Rattle.rv_model.specs.accesses.VectorAccess.{access_of};
ghost use Rattle.rv_model.specs.lending.GroupBounds.{emul};
ghost use Rattle.rv_model.specs.legality.Legality.{is_legal};
ghost use Rattle.rv_model.specs.vector.Groups.{IsConfiguration, element_width, sew_bits, vlmax, registers};
ghost use Rattle.vector_memory.specs.AccessKinds.{is_offset_access, is_segment_access};
ghost use Rattle.vector_memory.specs.Distances.{grouped, operation, transfer_of, whole};
ghost use Rattle.vector_memory.specs.MovedElements.{moved_elements};
ghost use Rattle.vector_memory.specs.Offsets.{OffsetsFit, indexed_of, moved_at};
ghost use Rattle.vector_memory.specs.Runs.{RunLeaves};

use crate::addresses::Strided;
use crate::indexed::IndexedTransfer;
use crate::length::{element_bytes, mask_length, whole_length};
use crate::runs::Extent;
use crate::segments::Segments;
use crate::shown::Viewer;
use crate::transfers::Transfer;
use crate::user_bytes::UserBytes;
use reg_groups::{emul, register_count, registers};
use rv_model::instructions::operations::{Direction, Eew, UnitOp};
use rv_model::{AccessInstr, Field, GROUP_BYTES, Instr, MemEnd, Scalar, Sew, VReg, VState, VType};

/// Return the direction as a unit-stride operation, which could also be a fault-only-first load.
#[inline(always)]
fn operation(direction: Direction) -> UnitOp
    ensures { result ≡ operation direction }
{
    match direction {
        Direction::Load => UnitOp::Load,
        Direction::Store => UnitOp::Store,
    }
}

/// Return the multiplier, in eighths of a register, of groups with elements of a width and the VLMAX of the
/// vector type.
#[inline(always)]
fn emul_of(width: Eew, vtype: VType) -> u32
    ensures { result ≡ emul (sew_bits (element_width width)) vtype }
{
    emul(Sew::from_width(width).bits(), vtype)
}

/// Return segments of `nf` + 1 fields of `size` bytes, in groups whose multiplier is `emul` eighths of a
/// register.
#[inline(always)]
fn grouped_segments(nf: Field<3>, size: usize, emul: u32, register: VReg) -> Segments
    ensures value { result
        ≡ record { fields = nf + 1; size = size; register = register; field_registers = registers emul } }
    ensures fields { nf + 1 ≤ 8 }
{
    Segments {
        fields: nf.value() as usize + 1,
        size,
        register,
        field_registers: registers(emul) as usize,
    }
}

/// Return a transfer of segments of `nf` + 1 fields of a width, which start at the register `vd`. The vector
/// length is the number of segments. `None` without a vector type.
#[inline(always)]
fn grouped_transfer(
    op: UnitOp,
    width: Eew,
    nf: Field<3>,
    vd: VReg,
    addresses: Strided,
    unmasked: bool,
    state: &VState,
) -> Option<Transfer>
    ensures value { result
        ≡ grouped op width nf vd addresses unmasked state.now state.now.conf.vtype }
    ensures fields { IfSome result (λ t. t.segments.fields ≤ 8) }
{
    let vtype = state.conf.vtype()?;
    let emul = emul_of(width, vtype);
    Some(Transfer {
        op,
        unmasked,
        segments: grouped_segments(nf, element_bytes(width), emul, vd),
        addresses,
        count: usize::from(state.conf.vl()),
    })
}

/// Return a transfer of `count` adjacent elements of `size` bytes from `base` on, in `registers` whole
/// registers.
#[inline(always)]
fn whole_transfer(
    op: UnitOp,
    size: usize,
    registers: u8,
    vd: VReg,
    base: u64,
    count: usize,
) -> Transfer
    ensures { result ≡ whole op size registers vd base count }
{
    Transfer {
        op,
        unmasked: true,
        segments: Segments {
            fields: 1,
            size,
            register: vd,
            field_registers: usize::from(registers),
        },
        addresses: Strided {
            base,
            stride: size as u64,
        },
        count,
    }
}

/// Return the transfer of a load or store of whole registers or of a mask.
#[inline(always)]
fn register_transfer(access: &AccessInstr, state: &VState, scalar: &Scalar) -> Option<Transfer>
    requires segments { is_segment_access access.now ≡ false }
    ensures value { result ≡ transfer_of access.now state.now scalar.now }
    ensures fields { IfSome result (λ t. t.segments.fields ≤ 8) }
{
    match *access {
        AccessInstr::WholeLoad {
            count,
            width,
            vd,
            rs1,
        } => {
            let size = element_bytes(width);
            let length = whole_length(count, width);
            let registers = register_count(count);
            Some(whole_transfer(UnitOp::Load, size, registers, vd, scalar.read(rs1), length))
        }
        AccessInstr::WholeStore { count, vd, rs1 } => {
            let length = whole_length(count, Eew::E8);
            let registers = register_count(count);
            Some(whole_transfer(UnitOp::Store, 1, registers, vd, scalar.read(rs1), length))
        }
        AccessInstr::MaskAccess { direction, vd, rs1 } => {
            let length = mask_length(usize::from(state.conf.vl()));
            let op = operation(direction);
            Some(whole_transfer(op, 1, 1, vd, scalar.read(rs1), length))
        }
        _ => None,
    }
}

/// Return the transfer of a load or store with segments at a constant distance; `None` if it needs a vector
/// type and there is none.
#[inline(always)]
fn transfer_of(access: &AccessInstr, state: &VState, scalar: &Scalar) -> Option<Transfer>
    ensures value { result ≡ transfer_of access.now state.now scalar.now }
    ensures fields { IfSome result (λ t. t.segments.fields ≤ 8) }
{
    match *access {
        AccessInstr::UnitStride {
            op,
            width,
            nf,
            vd,
            rs1,
            vm,
        } => {
            let addresses = Strided {
                base: scalar.read(rs1),
                stride: (nf.value() as u64 + 1) * element_bytes(width) as u64,
            };
            grouped_transfer(op, width, nf, vd, addresses, vm, state)
        }
        AccessInstr::Strided {
            direction,
            width,
            nf,
            vd,
            rs1,
            rs2,
            vm,
        } => {
            let addresses = Strided {
                base: scalar.read(rs1),
                stride: scalar.read(rs2),
            };
            let op = operation(direction);
            grouped_transfer(op, width, nf, vd, addresses, vm, state)
        }
        AccessInstr::Indexed { .. } => None,
        _ => register_transfer(access, state, scalar),
    }
}

/// Return whether it is an indexed load or store.
#[inline(always)]
fn is_indexed(access: &AccessInstr) -> bool
    ensures { result ≡ is_offset_access access.now }
{
    match *access {
        AccessInstr::Indexed { .. } => true,
        _ => false,
    }
}

/// Return the transfer of an indexed load or store under a vector type, which sets the width of its elements.
#[inline(always)]
fn indexed_of(
    access: &AccessInstr,
    vtype: VType,
    state: &VState,
    scalar: &Scalar,
) -> Option<IndexedTransfer>
    requires vtype { state.now.conf.vtype ≡ Some vtype }
    requires length { state.now.conf.vl ≤ vlmax vtype }
    requires legal { IsTrue (is_legal (Instr.Access access.now) (Some vtype) state.now.vstart) }
    ensures value { result ≡ indexed_of access.now vtype scalar.now }
    ensures fits { IfSome result (OffsetsFit state.now) }
    ensures moves { IfSome result (λ t. access_of access.now state.now scalar.now ≡ Some (moved_at t state.now)) }
{
    match *access {
        AccessInstr::Indexed {
            direction,
            width,
            nf,
            vd,
            rs1,
            vs2,
            vm,
            ..
        } => {
            let size = usize::from(vtype.sew.bits() / 8);
            Some(IndexedTransfer {
                op: operation(direction),
                unmasked: vm,
                segments: grouped_segments(nf, size, u32::from(vtype.lmul.eighths()), vd),
                base: scalar.read(rs1),
                first: vs2,
                width,
                emul: emul_of(width, vtype),
            })
        }
        _ => None,
    }
}

/// Execute an indexed load or store under a vector type.
#[inline(always)]
fn run_offsets<M: UserBytes>(
    access: &AccessInstr,
    vtype: VType,
    extent: Extent,
    scalar: &Scalar,
    memory: &mut M,
    state: &mut VState,
) -> MemEnd
    requires access { IsTrue (is_offset_access access.now) }
    requires vtype { state.old.conf.vtype ≡ Some vtype }
    requires length { state.old.conf.vl ≤ vlmax vtype }
    requires legal { IsTrue (is_legal (Instr.Access access.now) (Some vtype) state.old.vstart) }
    ensures run { RunLeaves
        (access_run extent.limit extent.fill_masked_off access.now state.old scalar.now (M.memory memory.old))
        result state.new (M.memory memory.new) }
    ensures others { memory.new ≡ M.with_memory memory.old (M.memory memory.new) }
{
    let Some(transfer) = indexed_of(access, vtype, state, scalar) else {
        return MemEnd::Done;
    };
    transfer.run_segments(extent, memory, state)
}

/// Execute a load or store segment by segment.
#[tactic(auto, unfolding(rv_model::specs::accesses::AccessRuns::access_run))]
#[inline(never)]
fn run_in_turn<M: UserBytes>(
    access: &AccessInstr,
    extent: Extent,
    scalar: &Scalar,
    memory: &mut M,
    state: &mut VState,
) -> MemEnd
    requires configured { IsConfiguration state.old.conf }
    requires legal { IsTrue (is_legal (Instr.Access access.now) state.old.conf.vtype state.old.vstart) }
    ensures run { RunLeaves
        (access_run extent.limit extent.fill_masked_off access.now state.old scalar.now (M.memory memory.old))
        result state.new (M.memory memory.new) }
    ensures others { memory.new ≡ M.with_memory memory.old (M.memory memory.new) }
{
    if is_indexed(access) {
        let Some(vtype) = state.conf.vtype() else {
            return MemEnd::Done;
        };
        return run_offsets(access, vtype, extent, scalar, memory, state);
    }
    let Some(transfer) = transfer_of(access, state, scalar) else {
        return MemEnd::Done;
    };
    transfer.run_segments(extent, memory, state)
}

/// Execute a load or store as one block, if possible. Return whether it is done. Strided instructions aren't
/// tried, because their elements are seldom contiguous.
#[inline(always)]
fn try_block<M: UserBytes>(
    access: &AccessInstr,
    extent: Extent,
    scalar: &Scalar,
    memory: &mut M,
    state: &mut VState,
) -> bool
    requires configured { IsConfiguration state.old.conf }
    requires legal { IsTrue (is_legal (Instr.Access access.now) state.old.conf.vtype state.old.vstart) }
    ensures done { result ≡ true → RunLeaves
        (access_run extent.limit extent.fill_masked_off access.now state.old scalar.now (M.memory memory.old))
        MemEnd.Done state.new (M.memory memory.new) }
    ensures others { memory.new ≡ M.with_memory memory.old (M.memory memory.new) }
    ensures unchanged_state { result ≡ false → state.new ≡ state.old }
    ensures unchanged_memory { result ≡ false → memory.new ≡ memory.old }
{
    if let AccessInstr::Strided { .. } = *access {
        return false;
    }
    let Some(transfer) = transfer_of(access, state, scalar) else {
        return false;
    };
    transfer.run_block(extent.limit, memory, state)
}

/// Execute a vector load or store of a user, for at most `limit` indices from `vstart` on. A load leaves its
/// tail unchanged. With `fill_masked_off`, its masked-off elements become all ones.
#[inline(always)]
pub fn run<M: UserBytes>(
    access: &AccessInstr,
    state: &mut VState,
    scalar: &Scalar,
    memory: &mut M,
    limit: usize,
    fill_masked_off: bool,
) -> MemEnd
    requires legal { IsTrue (is_legal (Instr.Access access.now) state.old.conf.vtype state.old.vstart) }
    requires limit { 1 ≤ limit }
    ensures model { RunLeaves (access_run limit fill_masked_off access.now state.old scalar.now (M.memory memory.old))
        result state.new (M.memory memory.new) }

    // If it is cut or faults, it can be resumed there, in a memory that may have more mapped pages.
    ensures restarts { AccessGoesOn fill_masked_off access.now scalar.now state.old (M.memory memory.old)
        (access_run limit fill_masked_off access.now state.old scalar.now (M.memory memory.old)) }

    // All state of `memory` besides the user's memory is unchanged.
    ensures memory { memory.new ≡ M.with_memory memory.old (M.memory memory.new) }
{
    // For the proof only: the vector length is one that the vector type allows.
    state.conf.length_law();
    let extent = Extent {
        limit,
        fill_masked_off,
    };
    if try_block(access, extent, scalar, memory, state) {
        return MemEnd::Done;
    }
    // A copy to pass to the other function, so that the compiler can keep the operands in registers.
    let copy = *access;
    run_in_turn(&copy, extent, scalar, memory, state)
}

/// Pass each element that an indexed load or store moves to the viewer, under a vector type.
#[inline(always)]
fn show_offsets<V: Viewer>(
    access: &AccessInstr,
    vtype: VType,
    state: &VState,
    scalar: &Scalar,
    left: u16,
    viewer: &mut V,
)
    requires access { IsTrue (is_offset_access access.now) }
    requires vtype { state.now.conf.vtype ≡ Some vtype }
    requires length { state.now.conf.vl ≤ vlmax vtype }
    requires legal { IsTrue (is_legal (Instr.Access access.now) (Some vtype) state.now.vstart) }
    requires viewer { V.has_room viewer.old (8 * GROUP_BYTES) }
    ensures seen { V.saw viewer.old
        (option_map_or (moved_elements state.now left) (access_of access.now state.now scalar.now) []) viewer.new }
    ensures room { (count : ℕ) → V.has_room viewer.old (count + 8 * GROUP_BYTES) → V.has_room viewer.new count }
{
    let Some(transfer) = indexed_of(access, vtype, state, scalar) else {
        return;
    };
    transfer.show(state, viewer);
}

/// Pass each element that a vector load or store moves to the viewer, in the order of indices and fields.
/// `state` is the state before the instruction, which is legal, isn't cut and doesn't fault. `left` is the
/// vector length after it, in elements, which a fault-only-first load may have reduced.
pub fn show_moves<V: Viewer>(
    access: &AccessInstr,
    state: &VState,
    scalar: &Scalar,
    left: u16,
    viewer: &mut V,
)
    requires legal { IsTrue (is_legal (Instr.Access access.now) state.now.conf.vtype state.now.vstart) }
    requires left { left ≤ state.now.conf.vl }
    requires viewer { V.has_room viewer.old (8 * GROUP_BYTES) }

    // The elements of the definition's transfers.
    ensures seen { V.saw viewer.old
        (option_map_or (moved_elements state.now left) (access_of access.now state.now scalar.now) []) viewer.new }
    ensures room { (count : ℕ) → V.has_room viewer.old (count + 8 * GROUP_BYTES) → V.has_room viewer.new count }
{
    // For the proof only: the vector length is one that the vector type allows.
    state.conf.length_law();
    if is_indexed(access) {
        let Some(vtype) = state.conf.vtype() else {
            return;
        };
        return show_offsets(access, vtype, state, scalar, left, viewer);
    }
    let Some(transfer) = transfer_of(access, state, scalar) else {
        return;
    };
    transfer.show(state, left, viewer);
}
