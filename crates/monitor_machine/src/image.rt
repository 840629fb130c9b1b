//! Named files that users can load.

/// A named file, which a machine borrows for its lifetime.
#[derive(Clone, Copy)]
pub struct Image<'a> {
    pub name: &'a str,
    pub bytes: &'a [u8],
}
