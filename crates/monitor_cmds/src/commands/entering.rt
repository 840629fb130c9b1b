//! The commands that create and remove a user's machine: `enter` and `leave`.
ghost use Rattle.std.specs.Prelude.{◌≡◌, [], ◌∷◌, ◌++◌, ◌+◌, ◌≤◌, length, codes};
ghost use Rattle.rv_model.specs.commands.Entering.{entering_named};
ghost use Rattle.rv_model.specs.text.Lines.{text};
ghost use Rattle.rv_model.specs.text.Words.{words};
ghost use Rattle.monitor_cmds.specs.Tag.{tag_byte};

use crate::lines::push_line;
use crate::tag::Tag;
use line_text::{Arguments, Reply, done};
use rv_model::EnteringCommand;

/// Return the group's command with a name and its arguments: `None` if the group has no command of this name, and
/// `Some(None)` if the arguments are wrong.
pub(crate) fn entering_named(name: &[u8], args: &[u8]) -> Option<Option<EnteringCommand>>
    ensures { result ≡ entering_named name.now (words args.now) }
{
    if name == b"enter".as_slice() {
        return Some(done(Arguments::new(args), EnteringCommand::Enter));
    }
    if name == b"leave".as_slice() {
        return Some(done(Arguments::new(args), EnteringCommand::Leave));
    }
    None
}

/// Append the line `entered`, the reply to `enter`.
pub fn entered(reply: &mut Reply, tag: Tag)
    requires { length reply.old + 10 ≤ 4096 }
    ensures text { reply.new ≡ reply.old ++ text (tag_byte tag) (codes "entered" ∷ []) }
    ensures bound { length reply.new ≡ length reply.old + 10 }
{
    push_line(reply, tag, b"entered");
}

/// Append the line `left`, the reply to `leave`.
pub fn left(reply: &mut Reply, tag: Tag)
    requires { length reply.old + 7 ≤ 4096 }
    ensures text { reply.new ≡ reply.old ++ text (tag_byte tag) (codes "left" ∷ []) }
    ensures bound { length reply.new ≡ length reply.old + 7 }
{
    push_line(reply, tag, b"left");
}
