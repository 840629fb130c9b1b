//! The first byte of a line of output.
use rv_model::User;

/// The addressee of a line of output.
#[derive(Clone, Copy)]
pub enum Tag {
    /// One user: the line starts with the user's digit.
    User(User),
    /// All users: the line starts with a star.
    Common,
}

impl Tag {
    ghost use Rattle.std.specs.Prelude.{◌≡◌};
    ghost use Rattle.monitor_cmds.specs.Tag.{tag_byte};

    /// Return the first byte of the line.
    pub(crate) fn byte(self) -> u8
        ensures { result ≡ tag_byte self }
    {
        match self {
            Tag::User(user) => b'0' + user.number(),
            Tag::Common => b'*',
        }
    }
}
