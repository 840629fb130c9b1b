//! Lines of a reply without variable parts.
ghost use Rattle.std.specs.Prelude.{◌≡◌, [], ◌∷◌, ◌++◌, ◌+◌, ◌≤◌, length, codes};
ghost use Rattle.rv_model.specs.text.Lines.{text};
ghost use Rattle.monitor_cmds.specs.Tag.{tag_byte};

use crate::tag::Tag;
use line_text::Reply;

/// Append a line: the tag, a space, the text, and a newline.
pub(crate) fn push_line(reply: &mut Reply, tag: Tag, line: &[u8])
    requires { length reply.old + (length line.now + 3) ≤ 4096 }
    ensures text { reply.new ≡ reply.old ++ text (tag_byte tag) (line.now ∷ []) }
    ensures bound { length reply.new ≡ length reply.old + (length line.now + 3) }
{
    reply.push(&[tag.byte(), b' ']);
    reply.push(line);
    reply.push(b"\n");
}

/// Append the line `ok`, the reply to a command without output.
pub fn ok(reply: &mut Reply, tag: Tag)
    requires { length reply.old + 5 ≤ 4096 }
    ensures text { reply.new ≡ reply.old ++ text (tag_byte tag) (codes "ok" ∷ []) }
    ensures bound { length reply.new ≡ length reply.old + 5 }
{
    push_line(reply, tag, b"ok");
}
