//! Lines of changes.
ghost use Rattle.std.specs.Prelude.{◌≡◌, ◌⊎◌, ◌++◌, ◌+◌, ◌<◌, ◌≤◌, length, flat_map, IfErr, OnErr, OnOk};
ghost use Rattle.recording.specs.declared.fault.RecordFault.TheVariants.{Unmapped};
ghost use Rattle.hex.specs.Hex.{encode_lower};
ghost use Rattle.rv_model.specs.commands.Printing.{hex16};
ghost use Rattle.rv_model.specs.memory.Memory.{Memory};
ghost use Rattle.memory_changes.specs.Changes.{change, change_line, changes_at, held, spaced};

use crate::place::{MAX_LENGTH, Place, SMALL_LENGTH};
use crate::reading::read_bytes;
use devices::{Sink, write_all};
use line_text::{Reply, push_bytes, push_decimal, push_hex16};
use recording::RecordFault;
use vector_memory::UserBytes;

/// Instruction that may have changed a place: its number, the ticks up to and including it, and its address.
#[derive(Clone, Copy)]
pub(crate) struct Moment {
    pub(crate) number: u64,
    pub(crate) ticks: u64,
    pub(crate) pc: u64,
}

/// Append a space and bytes, with two hexadecimal digits each.
fn push_held(reply: &mut Reply, bytes: &[u8])
    requires few { length bytes.now ≤ 256 }
    requires room { length reply.old + 513 ≤ 4096 }
    ensures text { reply.new ≡ reply.old ++ spaced (encode_lower bytes.now) }
    ensures bound { length reply.new ≤ length reply.old + 513 }
{
    reply.push(b" ");
    push_bytes(reply, bytes);
}

/// Append a space and a number in 16 hexadecimal digits.
fn push_address(reply: &mut Reply, addr: u64)
    requires { length reply.old + 17 ≤ 4096 }
    ensures text { reply.new ≡ reply.old ++ spaced (hex16 addr) }
    ensures bound { length reply.new ≡ length reply.old + 17 }
{
    reply.push(b" ");
    push_hex16(reply, addr);
}

/// Append the line of a change.
#[tactic(auto, unfolding(crate::specs::Changes::change_line))]
fn push_change(reply: &mut Reply, moment: &Moment, addr: u64, old: &[u8], new: &[u8])
    requires empty { length reply.old ≡ 0 }
    requires few { length old.now ≤ 256 }
    requires few_new { length new.now ≤ 256 }
    ensures { reply.new ≡ reply.old
        ++ change_line moment.now.number moment.now.ticks moment.now.pc addr old.now new.now }
{
    push_decimal(reply, moment.number);
    reply.push(b" ");
    push_decimal(reply, moment.ticks);
    push_address(reply, moment.pc);
    push_address(reply, addr);
    push_held(reply, old);
    push_held(reply, new);
    reply.push(b"\n");
}

/// Write the line of a change. Return `Write` if the sink fails.
#[inline(never)]
fn write_change<K: Sink>(
    sink: &mut K,
    moment: &Moment,
    addr: u64,
    old: &[u8],
    new: &[u8],
) -> Result<(), RecordFault>
    requires few { length old.now ≤ 256 }
    requires few_new { length new.now ≤ 256 }
    ensures line { OnOk result (K.took sink.old
        (change_line moment.now.number moment.now.ticks moment.now.pc addr old.now new.now) sink.new) }
    ensures failed { OnErr result (0 < K.failures sink.new) }
{
    let mut reply = Reply::new();
    push_change(&mut reply, moment, addr, old, new);
    match write_all(sink, reply.as_slice()) {
        Ok(()) => Ok(()),
        Err(_) => Err(RecordFault::Write("changes")),
    }
}

/// Write the line of a place if its bytes differ from `old`. The buffer receives the current bytes.
#[inline(always)]
fn compare_bytes<M: UserBytes, K: Sink>(
    sink: &mut K,
    memory: &M,
    moment: &Moment,
    place: &Place,
    old: &[u8],
    buffer: &mut [u8],
) -> Result<(), RecordFault>
    requires small { length old.now ≤ 256 }
    requires within { place.now.len ≤ length buffer.old }
    ensures line { OnOk result (K.took sink.old (change moment.now.number moment.now.ticks moment.now.pc
        place.now.addr old.now (held (M.memory memory.now) place.now)) sink.new) }
    ensures failed { IfErr result (λ fault. (fault ≡ Unmapped) ⊎ (0 < K.failures sink.new)) }
{
    let new = &mut buffer[..place.len];
    read_bytes(memory, place.addr, new)?;
    if old == &*new {
        return Ok(());
    }
    write_change(sink, moment, place.addr, old, new)
}

/// Write the line of a place if its bytes differ from `old`. A small place needs only a small buffer, which costs less.
#[inline(always)]
fn compare_place<M: UserBytes, K: Sink>(
    sink: &mut K,
    memory: &M,
    moment: &Moment,
    place: &Place,
    old: &[u8],
) -> Result<(), RecordFault>
    requires { length old.now ≤ 256 }
    ensures line { OnOk result (K.took sink.old (change moment.now.number moment.now.ticks moment.now.pc
        place.now.addr old.now (held (M.memory memory.now) place.now)) sink.new) }
    ensures failed { IfErr result (λ fault. (fault ≡ Unmapped) ⊎ (0 < K.failures sink.new)) }
{
    if place.len <= SMALL_LENGTH {
        return compare_bytes(sink, memory, moment, place, old, &mut [0; SMALL_LENGTH]);
    }
    compare_bytes(sink, memory, moment, place, old, &mut [0; MAX_LENGTH])
}

/// Write the lines of the places whose bytes changed, in order. `old` holds the bytes of all places before the instruction.
#[inline(always)]
pub(crate) fn write_changes<M: UserBytes, K: Sink>(
    sink: &mut K,
    memory: &M,
    moment: &Moment,
    places: &[Place],
    old: &[u8],
) -> Result<(), RecordFault>
    ensures lines { OnOk result ((m : Memory) → old.now ≡ flat_map (held m) places.now
        → K.took sink.old (changes_at moment.now.number moment.now.ticks moment.now.pc m (M.memory memory.now)
        places.now) sink.new) }
    ensures failed { IfErr result (λ fault. (fault ≡ Unmapped) ⊎ (0 < K.failures sink.new)) }
{
    let mut rest = old;
    for place in places {
        // This never happens because `old` has the bytes of all places; the proof needs the test.
        if rest.len() < place.len {
            return Err(RecordFault::Unmapped);
        }
        let (before, others) = rest.split_at(place.len);
        compare_place(sink, memory, moment, place, before)?;
        rest = others;
    }
    Ok(())
}
