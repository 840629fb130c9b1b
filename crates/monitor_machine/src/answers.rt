//! Replies that many commands of a user share.
ghost use Rattle.std.specs.Prelude.{◌≡◌, ◌+◌, [], ◌∷◌, codes};
ghost use Rattle.rv_model.specs.commands.Printing.{refused};
ghost use Rattle.rv_model.specs.text.Lines.{text};

use monitor_cmds::{Reply, Tag};
use rv_model::{Refusal, User};

/// Replace the reply to a user's command with a refusal.
pub(crate) fn refuse(reply: &mut Reply, user: User, refusal: Refusal)
    ensures { reply.new ≡ text (48 + user) (refused refusal ∷ []) }
{
    reply.clear();
    monitor_cmds::refused(reply, Tag::User(user), refusal);
}

/// Replace the reply to a user's command with `ok`.
pub(crate) fn accept(reply: &mut Reply, user: User)
    ensures { reply.new ≡ text (48 + user) (codes "ok" ∷ []) }
{
    reply.clear();
    monitor_cmds::ok(reply, Tag::User(user));
}
