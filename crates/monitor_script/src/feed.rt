//! Execution of a script byte by byte.
ghost use Rattle.std.specs.Prelude.{◌≡◌, ℕ, ◌<◌, length, take, OnOk, OnErr};
ghost use Rattle.monitor_machine.specs.MachineState.{after_line, line_output};
ghost use Rattle.rv_model.specs.machine.Setup.{user_count};
ghost use Rattle.devices.specs.Device.{Rose};
ghost use Rattle.monitor_script.specs.Feed.{feed, fed, Cut};

use crate::line::Line;
use devices::{DeviceFault, Sink, write_all};
use monitor_cmds::Reply;
use monitor_machine::Machine;
use std::alloc::Allocator;

/// Execute a line, and write its reply to `sink`. If the write fails, the machine has executed the line.
pub(crate) fn serve<A: Allocator, K: Sink>(
    machine: &mut Machine<'_, A>,
    line: &[u8],
    reply: &mut Reply,
    sink: &mut K,
) -> Result<(), DeviceFault>
    ensures machine { machine.new ≡ after_line machine.old line.now }
    ensures setup { machine.new.setup ≡ machine.old.setup }
    ensures eight { length machine.new.world.parts ≡ user_count }
    ensures ok { OnOk result (K.took sink.old (line_output machine.old line.now) sink.new) }
    ensures unfailed { OnOk result (K.failures sink.new ≡ K.failures sink.old) }
    ensures cause { OnErr result (Rose (K.failures sink.old) (K.failures sink.new)) }
    ensures part { OnErr result ((n : ℕ) × ((n < length (line_output machine.old line.now))
        × K.took sink.old (take n (line_output machine.old line.now)) sink.new)) }
{
    machine.answer(line, reply);
    write_all(sink, reply.as_slice())
}

/// Process one byte of a script: a newline ends the line and executes it; any other byte is appended to the line.
#[tactic(auto, unfolding(crate::specs::Feed::feed))]
fn take_byte<A: Allocator, K: Sink>(
    machine: &mut Machine<'_, A>,
    line: &mut Line,
    byte: u8,
    reply: &mut Reply,
    sink: &mut K,
) -> Result<(), DeviceFault>
    ensures machine { OnOk result (machine.new ≡ (feed machine.old line.old byte).machine) }
    ensures setup { machine.new.setup ≡ machine.old.setup }
    ensures line { OnOk result (line.new ≡ (feed machine.old line.old byte).line) }
    ensures ok { OnOk result (
        K.took sink.old (feed machine.old line.old byte).output sink.new) }
    ensures unfailed { OnOk result (K.failures sink.new ≡ K.failures sink.old) }
    ensures newline { OnErr result (byte ≡ 10) }
    ensures command_outcome { OnErr result (machine.new ≡ after_line machine.old line.old) }
    ensures part { OnErr result ((n : ℕ) × ((n < length (line_output machine.old line.old))
        × K.took sink.old (take n (line_output machine.old line.old)) sink.new)) }
    ensures cause { OnErr result (Rose (K.failures sink.old) (K.failures sink.new)) }
{
    if byte != b'\n' {
        line.push(byte);
        return Ok(());
    }
    serve(machine, line.as_slice(), reply, sink)?;
    line.clear();
    Ok(())
}

/// Process bytes of a script. The reply to each line that ends in them is written before the next byte is processed.
pub(crate) fn take_bytes<A: Allocator, K: Sink>(
    machine: &mut Machine<'_, A>,
    line: &mut Line,
    bytes: &[u8],
    reply: &mut Reply,
    sink: &mut K,
) -> Result<(), DeviceFault>
    ensures machine { OnOk result (machine.new ≡ (fed machine.old line.old bytes.now).machine) }
    ensures setup { machine.new.setup ≡ machine.old.setup }
    ensures line { OnOk result (line.new ≡ (fed machine.old line.old bytes.now).line) }
    ensures ok { OnOk result (
        K.took sink.old (fed machine.old line.old bytes.now).output sink.new) }
    ensures unfailed { OnOk result (K.failures sink.new ≡ K.failures sink.old) }
    ensures cut { OnErr result (
        Cut machine.old line.old bytes.now (λ xs. K.took sink.old xs sink.new) machine.new) }
    ensures cause { OnErr result (Rose (K.failures sink.old) (K.failures sink.new)) }
{
    for byte in bytes {
        take_byte(machine, line, *byte, reply, sink)?;
    }
    Ok(())
}
