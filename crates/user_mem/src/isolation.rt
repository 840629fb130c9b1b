//! Isolation: a call changes the memory of one user only.
ghost use Rattle.user_mem.specs.Users.{ReplacesOwn, KeepsOthers};

/// Replacing a user's memory sets that memory and leaves those of all other users unchanged.
pub fn isolation_law()
    ensures own { ReplacesOwn }
    ensures others { KeepsOthers }
{}
