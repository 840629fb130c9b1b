//! The environment call `write`, as in Linux. Its only file is the output buffer.
ghost use Rattle.std.specs.Prelude.{◌≡◌, ◌≤◌, ◌+◌, ◌-◌, ◌++◌, length, min, Ok, Err, if◌then◌else◌};
ghost use Rattle.rv_model.specs.declared.memory.Access.TheVariants.{Load};
ghost use Rattle.rv_model.specs.memory.Memory.{bytes_at, can_access};
ghost use Rattle.rv_model.specs.step.WriteCall.{output_size, write_call, write_count, write_size};
ghost use Rattle.hart.specs.States.{LeadsOutput};

use crate::retirement::write_rd;
use arrayvec::ArrayVec;
use rv_model::{Access, Fault, OUTPUT_SIZE, Reg, Scalar, StepEnd, WRITE_SIZE};
use vector_memory::UserBytes;

/// File descriptor of the output buffer.
const OUTPUT: u64 = 1;

/// Error number for any other file descriptor, returned negated: EBADF of Linux.
const BAD_FILE: u64 = 9;

/// Error number if some of the bytes can't be read, returned negated: EFAULT of Linux.
const BAD_ADDRESS: u64 = 14;

/// Return the number of bytes that a call for `asked` bytes writes: at most `WRITE_SIZE`, and at most the
/// room in the output buffer.
fn write_count(asked: u64, output: &ArrayVec<u8, OUTPUT_SIZE>) -> usize
    ensures value { result ≡ write_count asked output.now.items }
    ensures few { result ≤ write_size }
    ensures fits { length output.now.items + result ≤ output_size }
{
    let most = output.remaining_capacity().min(WRITE_SIZE);
    asked.min(most as u64) as usize
}

/// Append `count` bytes of the user's memory to the output buffer; append nothing if some of them can't be
/// read.
fn append_output<M: UserBytes>(
    addr: u64,
    count: usize,
    memory: &M,
    output: &mut ArrayVec<u8, OUTPUT_SIZE>,
) -> Result<(), Fault>
    requires few { count ≤ write_size }
    requires fits { length output.old.items + count ≤ output_size }
    ensures value { result ≡ (if can_access Load (M.memory memory.now) addr count
        then Ok tt else Err (record { addr = addr })) }
    ensures output { output.new.items ≡ (if can_access Load (M.memory memory.now) addr count
        then output.old.items ++ bytes_at (M.memory memory.now) addr count else output.old.items) }
{
    let mut buffer = [0; WRITE_SIZE];
    let bytes = &mut buffer[..count];
    memory.read(addr, Access::Load, bytes)?;
    let _ = output.try_extend_from_slice(bytes);
    Ok(())
}

/// Write bytes of the user's memory to the output buffer, and return in a0 (x10) their number or a negated
/// error number. If the buffer is full, the program stops.
#[tactic(auto, unfolding(rv_model::specs::step::WriteCall::write_call))]
pub(crate) fn write<M: UserBytes>(
    scalar: &mut Scalar,
    memory: &M,
    output: &mut ArrayVec<u8, OUTPUT_SIZE>,
) -> StepEnd
    ensures model { LeadsOutput write_call scalar.old (M.memory memory.now) output.old.items
        scalar.new (M.memory memory.now) output.new.items result }
{
    let asked = scalar.read(Reg::new(12));
    if scalar.read(Reg::new(10)) != OUTPUT {
        return write_rd(Reg::new(10), BAD_FILE.wrapping_neg(), scalar);
    }
    if asked == 0 {
        return write_rd(Reg::new(10), 0, scalar);
    }
    if output.is_full() {
        return StepEnd::OutputFull;
    }
    let count = write_count(asked, output);
    match append_output(scalar.read(Reg::new(11)), count, memory, output) {
        Ok(()) => write_rd(Reg::new(10), count as u64, scalar),
        Err(_) => write_rd(Reg::new(10), BAD_ADDRESS.wrapping_neg(), scalar),
    }
}
