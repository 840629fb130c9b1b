//! The vector unit, which holds the state of one user at a time.
ghost use Rattle.lazy_context.specs.LazyUnit.{
  AllKeep,
  IsConsistentAfterReturn,
  NextTouchIsIdentity,
  IsOwnerAUser,
  IsSettled,
  KeepsAreas,
  KeepsOtherAreas,
  LendsSeat,
  OthersKeep,
  discarded,
  new_unit,
  owner_written_back,
  poked,
  record_of,
  state_of,
  taken,
  touched,
};
ghost use Rattle.lazy_context.specs.SaveAreas.{with_register};
ghost use Rattle.rv_model.specs.machine.Setup.{user_count};
ghost use Rattle.rv_model.specs.machine.VectorUnit.{
  is_owned_by,
  stats_of,
  unit_discarded,
  unit_register_written,
  unit_touched,
  unused_unit,
};
ghost use Rattle.rv_model.specs.vector.Groups.{IsConfiguration};
ghost use Rattle.rv_model.specs.vector.State.{initial_vector};
ghost use Rattle.std.specs.Borrow.{sem};
ghost use Rattle.std.specs.Prelude.{ℕ, ◌≡◌, ◌≤◌, false, true};

use crate::areas::Areas;
use rv_model::{RegisterBytes, Seat, Stats, User, VReg, VState};

/// The one vector unit that all users share: the state of its owner, marked as dirty if it has
/// changed since it was loaded, and the save areas of all users. `first_uses` counts how often a
/// user without a saved state became the owner.
#[derive(Drop)]
pub struct Unit {
    seat: Seat,
    owner: Option<User>,
    first_uses: u64,
    areas: Areas,
}

impl Unit {
    /// Create a unit that no user has used.
    #[tactic(auto, using(crate::proofs::UnitLaws::initial_states))]
    pub fn new() -> Unit
        ensures value { result ≡ new_unit }
        ensures states { (user : ℕ) → state_of result user ≡ initial_vector }
        ensures counts { record_of result ≡ unused_unit }
        ensures settled { IsSettled result }
    {
        Unit {
            seat: Seat {
                state: VState::new(),
                dirty: false,
            },
            owner: None,
            first_uses: 0,
            areas: Areas::new(),
        }
    }

    /// Return whether the unit holds this user's state.
    fn is_owner(&self, user: User) -> bool
        ensures value { result ≡ is_owned_by self.now.owner user }
        ensures user { (1 ≤ user) × (user ≤ user_count) }
        ensures owner { IsOwnerAUser self.now.owner }
    {
        let number = user.number();
        match self.owner {
            Some(owner) => owner.number() == number,
            None => false,
        }
    }

    /// Save the owner's state if it is dirty.
    #[tactic(auto, using(crate::proofs::UnitLaws::other_areas))]
    fn write_back(&mut self)
        ensures value { self.new ≡ owner_written_back self.old }
        ensures kept { KeepsOtherAreas self.old self.new }
    {
        if let Some(owner) = self.owner {
            // For the proof alone: the number is 1 to 8.
            let _ = owner.number();
            if self.seat.dirty {
                self.areas.save(owner, &self.seat.state);
            }
        }
    }

    /// Make a user the owner, and restore the user's state if it is saved. Otherwise the user
    /// starts with the initial state.
    fn take(&mut self, user: User)
        ensures { self.new ≡ taken user self.old.areas self.old }
    {
        self.owner = Some(user);
        self.seat.dirty = false;
        if self.areas.marked(user) {
            self.areas.restore(user, &mut self.seat.state);
        } else {
            self.seat.state = VState::new();
            self.first_uses = self.first_uses.saturating_add(1);
        }
    }

    /// Make a user the owner, unless the user already is.
    #[tactic(auto, using(crate::proofs::UnitLaws::taken_areas))]
    fn switch(&mut self, user: User)
        ensures value { self.new ≡ touched user self.old }
        ensures kept { KeepsOtherAreas self.old self.new }
    {
        if !self.is_owner(user) {
            self.write_back();
            self.take(user);
        }
    }

    /// Make a user the owner, and return a borrow of the user's state. A caller that changes the
    /// state must set its dirty mark, and must never clear the mark.
    pub fn touch(&mut self, user: User) -> &mut Seat
        requires { IsSettled self.old }
        ensures* writes_back { sem 𝓛 (LendsSeat self.entry user result) }
        ensures value { result.now ≡ (touched user self.old).seat }
        ensures states { AllKeep self.old (touched user self.old) }
        ensures own { result.now.state ≡ state_of self.old user }
        ensures counts { record_of (touched user self.old) ≡ unit_touched user (record_of self.old) }
        ensures kept { KeepsOtherAreas self.old (touched user self.old) }
    {
        // For the proof alone.
        self.lending_law(user);
        self.switch(user);
        &mut self.seat
    }

    /// Return a copy of a user's state.
    pub fn peek(&self, user: User) -> VState
        ensures { result ≡ state_of self.now user }
    {
        if self.is_owner(user) {
            let mut state = VState::new();
            state.copy_from(&self.seat.state);
            state
        } else {
            self.areas.peek(user)
        }
    }

    /// Write the 32 bytes of a user's vector register, without a switch or a count.
    #[tactic(auto, using(crate::proofs::UnitLaws::poking_steps))]
    pub fn poke(&mut self, user: User, vreg: VReg, bytes: &[u8; 32])
        ensures value { self.new ≡ poked user vreg bytes.now self.old }
        ensures own { state_of self.new user ≡ with_register vreg bytes.now (state_of self.old user) }
        ensures others { OthersKeep user self.old self.new }
        ensures counts { record_of self.new ≡ unit_register_written user (record_of self.old) }
        ensures areas { is_owned_by self.old.owner user ≡ true → self.new.areas ≡ self.old.areas }
        ensures settled { IsSettled self.old → IsSettled self.new }
    {
        if self.is_owner(user) {
            self.seat
                .state
                .file
                .set_register(vreg, &RegisterBytes::new(bytes));
            self.seat.dirty = true;
        } else {
            self.areas.poke(user, vreg, bytes);
        }
    }

    /// Discard a user's state: the user has the initial state again.
    #[tactic(auto, using(crate::proofs::UnitLaws::discarding_steps))]
    pub fn discard(&mut self, user: User)
        ensures value { self.new ≡ discarded user self.old }
        ensures own { state_of self.new user ≡ initial_vector }
        ensures others { OthersKeep user self.old self.new }
        ensures counts { record_of self.new ≡ unit_discarded user (record_of self.old) }
        ensures areas { self.new.areas.states ≡ self.old.areas.states }
        ensures settled { IsSettled self.old → IsSettled self.new }
    {
        self.areas.clear(user);
        if self.is_owner(user) {
            self.owner = None;
        }
    }

    /// State the laws of a touch, and do nothing. A touch by the owner changes nothing, a touch of a
    /// unit with a clean owner writes no save area, and after the borrowed state is returned the
    /// unit can be touched again.
    #[tactic(auto, using(crate::proofs::UnitLaws::lending_steps))]
    pub fn lending_law(&self, user: User)
        ensures own { IsSettled self.now → (touched user self.now).seat.state ≡ state_of self.now user }
        ensures states { IsSettled self.now → AllKeep self.now (touched user self.now) }
        ensures counts { record_of (touched user self.now) ≡ unit_touched user (record_of self.now) }
        ensures by_owner { is_owned_by self.now.owner user ≡ true → touched user self.now ≡ self.now }
        ensures clean { self.now.seat.dirty ≡ false → KeepsAreas self.now (touched user self.now) }
        ensures settled { IsSettled self.now → IsConsistentAfterReturn user self.now }
        ensures again { NextTouchIsIdentity user self.now }
    {
        self.areas.whole_law();
        let _ = self.is_owner(user);
    }

    /// State that a user's vector length is valid for the vector type, and do nothing.
    pub fn length_law(&self, user: User)
        ensures { IsConfiguration (state_of self.now user).conf }
    {
        if self.is_owner(user) {
            self.seat.state.conf.length_law();
        } else {
            self.areas.length_law(user);
        }
    }

    /// Return the numbers of saves, restores and first uses, and the owner.
    pub fn stats(&self) -> Stats
        ensures { result ≡ stats_of (record_of self.now) }
    {
        let (saves, restores) = self.areas.counts();
        Stats {
            saves,
            restores,
            inits: self.first_uses,
            owner: self.owner,
        }
    }
}
