//! Turns of the users, in round-robin order.
ghost use Rattle.std.specs.Prelude.{◌≡◌, ◌<◌, slice_index_or};
ghost use Rattle.rv_model.specs.machine.Grants.{next_user, turns_after};
ghost use Rattle.rv_model.specs.machine.Setup.{user_count};

use rv_model::{USER_COUNT, User};

/// Return the user at position `turns`, counted from 0, in the order of turns after `last`.
#[tactic(auto, using(rv_model::proofs::machine_lemmas::Turns::turn_at))]
fn turn(last: User, turns: usize) -> User
    requires { turns < user_count }
    ensures { result ≡ slice_index_or (turns_after last) turns 0 }
{
    User::at_index((usize::from(last.number()) + turns) % USER_COUNT)
}

/// Return the first user with a running program, in the order of turns after `last`: the users
/// after `last`, and then those from user 1 up to `last`. `running` has a flag for each user, user
/// 1 first. Return `None` if no program is running.
#[tactic(auto, using(crate::proofs::TurnLaws::found_steps), unfolding(rv_model::specs::machine::Grants::next_user))]
pub fn next(last: User, running: &[bool; USER_COUNT]) -> Option<User>
    ensures { result ≡ next_user last running.now }
{
    for turns in 0..USER_COUNT {
        let user = turn(last, turns);
        if running[user.index()] {
            return Some(user);
        }
    }
    None
}
