//! Numbers in the form that a line shows.
ghost use Rattle.std.specs.Prelude.{◌≡◌, ◌+◌, ◌++◌, ◌≤◌, length};
ghost use Rattle.choice_log.specs.ChoiceLines.{spaced};

use line_text::{Reply, push_decimal};

/// Append a space and a number.
pub(crate) fn push_spaced(reply: &mut Reply, number: u64)
    requires { length reply.old + 21 ≤ 4096 }
    ensures text { reply.new ≡ reply.old ++ spaced number }
    ensures bound { length reply.new ≤ length reply.old + 21 }
{
    reply.push(b" ");
    push_decimal(reply, number);
}
