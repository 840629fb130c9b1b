//! Lines of the choices of an instruction.
ghost use Rattle.std.specs.Prelude.{◌≡◌, ◌+◌, ◌++◌, ◌<◌, ◌≤◌, length, OnErr, OnOk};
ghost use Rattle.open_choices.specs.Groups.{fill_of_group};
ghost use Rattle.choice_log.specs.ChoiceLines.{element_lines};
ghost use Rattle.choice_log.specs.Listed.{lines_of_open};

use crate::elements::push_element_line;
use crate::lengths::{push_length_line, push_trim_line};
use devices::{Sink, write_all};
use line_text::Reply;
use open_choices::{OpenGroup, Seed, SeedChoices};
use recording::{Open, RecordFault};
use rv_model::{Scalar, VConf};

/// Append the lines of the elements of a group that a seed chooses.
fn push_element_lines(reply: &mut Reply, seed: &Seed, number: u64, group: &OpenGroup)
    requires { length reply.old ≡ 0 }
    ensures { reply.new ≡ element_lines seed.now number (fill_of_group group.now) }
{
    let choices = SeedChoices {
        seed: *seed,
        number,
    };
    push_element_line(reply, false, &choices, group);
    push_element_line(reply, true, &choices, group);
}

/// Append the lines of the choices of a seed after an instruction that leaves this open, and these registers.
fn push_lines(
    reply: &mut Reply,
    seed: &Seed,
    number: u64,
    left: &Open,
    conf: &VConf,
    scalar: &Scalar,
)
    requires { length reply.old ≡ 0 }
    ensures { reply.new ≡ lines_of_open seed.now number left.now conf.now }
{
    match left {
        Open::Nothing => {}
        Open::Elements(group) => push_element_lines(reply, seed, number, group),
        Open::Length(rd, length) => {
            push_length_line(reply, seed, number, *rd, *length, conf, scalar);
        }
        Open::FirstOnly(vstart) => push_trim_line(reply, seed, number, *vstart, conf),
    }
}

/// Write the lines of the choices of a seed after an instruction that leaves this open, and these registers. Return
/// `Write` if the sink fails.
pub(crate) fn write_lines<K: Sink>(
    sink: &mut K,
    seed: &Seed,
    number: u64,
    left: &Open,
    conf: &VConf,
    scalar: &Scalar,
) -> Result<(), RecordFault>
    ensures lines { OnOk result (K.took sink.old (lines_of_open seed.now number left.now conf.now) sink.new) }
    ensures failed { OnErr result (0 < K.failures sink.new) }
{
    let mut reply = Reply::new();
    push_lines(&mut reply, seed, number, left, conf, scalar);
    match write_all(sink, reply.as_slice()) {
        Ok(()) => Ok(()),
        Err(_) => Err(RecordFault::Write("choices")),
    }
}
