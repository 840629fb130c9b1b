//! The trace of a user.
use arrayvec::ArrayVec;
use circular_buffer::HeapCircularBuffer;
use monitor_cmds::{Reply, Tag};
use std::alloc::{AllocError, Allocator};
use std::marker::Model;

/// Number of addresses of a trace.
const TRACE_LENGTH: usize = 16;

/// Number of addresses that are collected before they move to the ring.
const BATCH: usize = 128;

/// The addresses of the last 16 instructions of a user that ran to their end, the oldest first.
/// Recent addresses are collected, and move to the ring in batches. Only `new` allocates memory.
#[derive(Drop)]
pub(crate) struct Trace<A: Allocator> {
    ring: HeapCircularBuffer<u64, A>,
    recent: ArrayVec<u64, BATCH>,
}

impl<A: Allocator> Model for Trace<A> {
    ghost use Rattle.std.specs.Prelude.{List, ℕ, ◌≡◌, ◌++◌};
    ghost use Rattle.circular_buffer.specs.Buffer.{keep_last};

    ghost Value = { List ℕ };

    ghost view = { λ t. keep_last 16 (t.ring.items ++ t.recent.items) };

    ghost invariant = { λ t. t.ring.capacity ≡ 16 };
}

impl<A: Allocator> Trace<A> {
    ghost use Rattle.std.specs.Prelude.{◌≡◌, ◌++◌, ◌+◌, ◌≤◌, [], ◌∷◌, length, IfOk};
    ghost use Rattle.rv_model.specs.commands.Running.{trace_line};
    ghost use Rattle.rv_model.specs.machine.UserMachine.{recorded};
    ghost use Rattle.rv_model.specs.text.Lines.{text};
    ghost use Rattle.monitor_cmds.specs.Tag.{tag_byte};

    /// Create an empty trace, or fail if memory runs out.
    pub(crate) fn new(alloc: A) -> Result<Self, AllocError>
        ensures { IfOk result (λ trace. trace ≡ []) }
    {
        let ring = HeapCircularBuffer::with_capacity(alloc, TRACE_LENGTH)?;
        let recent = ArrayVec::new();
        Ok(Trace { ring, recent })
    }

    /// Remove all addresses.
    pub(crate) fn clear(&mut self)
        ensures { self.new ≡ [] }
    {
        self.ring.clear();
        self.recent.clear();
    }

    /// Add the address of an instruction; it replaces the oldest one if there are 16.
    pub(crate) fn record(&mut self, addr: u64)
        ensures { self.new ≡ recorded self.old addr }
    {
        make_room(&mut self.ring, &mut self.recent);
        self.recent.push(addr);
    }

    /// Append the line of these addresses to a reply.
    pub(crate) fn print(&mut self, reply: &mut Reply, tag: Tag)
        requires room { length reply.old + 280 ≤ 4096 }
        ensures same { self.new ≡ self.old }
        ensures text { reply.new ≡ reply.old ++ text (tag_byte tag) (trace_line self.old ∷ []) }
    {
        settle(&mut self.ring, &mut self.recent);
        let (older, newer) = self.ring.as_slices();
        monitor_cmds::trace_line(reply, tag, older, newer);
    }
}

ghost use Rattle.std.specs.Prelude.{◌≡◌, ◌++◌, ◌<◌, [], length};
ghost use Rattle.circular_buffer.specs.Buffer.{buffer, keep_last};

/// Move the recent addresses to the ring if there is no room for another one.
#[inline(always)]
fn make_room<A: Allocator>(ring: &mut HeapCircularBuffer<u64, A>, recent: &mut ArrayVec<u64, BATCH>)
    ensures room { length recent.new.items < 128 }
    ensures capacity { ring.new.capacity ≡ ring.old.capacity }
    ensures kept { keep_last ring.old.capacity (ring.new.items ++ recent.new.items)
        ≡ keep_last ring.old.capacity (ring.old.items ++ recent.old.items) }
{
    if recent.is_full() {
        settle(&mut *ring, &mut *recent);
    }
}

/// Move the recent addresses to the ring.
#[inline(never)]
fn settle<A: Allocator>(ring: &mut HeapCircularBuffer<u64, A>, recent: &mut ArrayVec<u64, BATCH>)
    ensures ring { ring.new
        ≡ buffer (keep_last ring.old.capacity (ring.old.items ++ recent.old.items)) ring.old.capacity }
    ensures recent { recent.new.items ≡ [] }
{
    ring.extend_from_slice(recent.as_slice());
    recent.clear();
}
