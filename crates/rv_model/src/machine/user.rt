//! The users of the monitor.
ghost use Rattle.std.specs.Prelude.{◌≡◌, ◌≤◌, ◌+◌, ◌-◌, ◌<◌, IfSome, IsSome, ◌↔◌};
ghost use Rattle.rv_model.specs.machine.Setup.{user_count};

use std::marker::Model;

/// The number of users.
pub const USER_COUNT: usize = 8;

/// A user, identified by a number from 1 to `USER_COUNT`.
#[derive(Clone, Copy)]
pub struct User {
    number: u8,
}

impl Model for User {
    ghost use Rattle.std.specs.Prelude.{ℕ, ◌≤◌};
    ghost use Rattle.rv_model.specs.machine.Setup.{user_count};

    ghost Value = { ℕ };

    ghost view = { λ u. u.number };

    ghost invariant = { λ u. (1 ≤ u.number) × (u.number ≤ user_count) };

    ghost inverse = { λ n. record { number = n } };
}

impl User {
    /// Return the user with this number, or `None` unless it is 1 to `USER_COUNT`.
    pub fn new(number: u8) -> Option<User>
        ensures valid { IsSome result ↔ ((1 ≤ number) × (number ≤ user_count)) }
        ensures value { IfSome result (λ u. u ≡ number) }
    {
        if 1 <= number && usize::from(number) <= USER_COUNT {
            Some(User { number })
        } else {
            None
        }
    }

    /// Return the user at this 0-based index in a table of all users.
    pub fn at_index(index: usize) -> User
        requires { index < user_count }
        ensures { result ≡ index + 1 }
    {
        User {
            number: index as u8 + 1,
        }
    }

    /// Return the user's number, 1 to `USER_COUNT`.
    pub fn number(self) -> u8
        ensures value { result ≡ self }
        ensures low { 1 ≤ result }
        ensures high { result ≤ user_count }
    {
        self.number
    }

    /// Return the user's 0-based index in a table of all users.
    pub fn index(self) -> usize
        ensures value { result ≡ self - 1 }
        ensures small { result < user_count }
    {
        usize::from(self.number) - 1
    }
}
