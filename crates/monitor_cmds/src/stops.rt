//! The line for a stop of a program.
ghost use Rattle.std.specs.Prelude.{◌≡◌, [], ◌∷◌, ◌++◌, ◌+◌, ◌≤◌, length};
ghost use Rattle.rv_model.specs.commands.Printing.{stop_line};
ghost use Rattle.rv_model.specs.text.Lines.{text};
ghost use Rattle.monitor_cmds.specs.Tag.{tag_byte};

use crate::tag::Tag;
use line_text::{Reply, push_stop};
use rv_model::Stop;

/// Append the line for a stop of a program at `pc`, with its cause, for example `exit 7 pc=0000000000000008`.
pub fn stop_line(reply: &mut Reply, tag: Tag, pc: u64, stop: Stop)
    requires { length reply.old + 80 ≤ 4096 }
    ensures text { reply.new ≡ reply.old ++ text (tag_byte tag) (stop_line pc stop ∷ []) }
    ensures bound { length reply.new ≤ length reply.old + 80 }
{
    reply.push(&[tag.byte(), b' ']);
    push_stop(reply, pc, stop);
    reply.push(b"\n");
}
