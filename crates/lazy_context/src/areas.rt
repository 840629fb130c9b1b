//! The save areas of all users.
ghost use Rattle.std.specs.Prelude.{◌≡◌, false, length, true};
ghost use Rattle.lazy_context.specs.SaveAreas.{count_restore, new_areas, saved_state, with_register, with_saved};
ghost use Rattle.rv_model.specs.machine.Setup.{user_count};
ghost use Rattle.rv_model.specs.machine.VectorUnit.{counted, is_marked, with_mark};
ghost use Rattle.rv_model.specs.vector.Groups.{IsConfiguration};

use rv_model::{RegisterBytes, USER_COUNT, User, VConf, VReg, VState};

/// A save area for each user, with a mark that is set if it holds the user's vector state, and the
/// numbers of saves and restores.
#[derive(Drop)]
pub struct Areas {
    states: [VState; USER_COUNT],
    marks: [bool; USER_COUNT],
    saves: u64,
    restores: u64,
}

impl Areas {
    /// Create areas without saved states.
    pub fn new() -> Areas
        ensures { result ≡ new_areas }
    {
        Areas {
            states: [
                VState::new(),
                VState::new(),
                VState::new(),
                VState::new(),
                VState::new(),
                VState::new(),
                VState::new(),
                VState::new(),
            ],
            marks: [false; USER_COUNT],
            saves: 0,
            restores: 0,
        }
    }

    /// Return whether a user's state is saved.
    pub fn marked(&self, user: User) -> bool
        ensures { result ≡ is_marked self.now.marks user }
    {
        self.marks[user.index()]
    }

    /// Save a user's state, and count the save.
    pub fn save(&mut self, user: User, state: &VState)
        ensures areas { self.new ≡ record (with_saved user state.now self.old) { saves = counted self.old.saves } }
        ensures whole { (length self.old.states ≡ user_count) × (length self.old.marks ≡ user_count) }
    {
        let place = user.index();
        self.states[place].copy_from(state);
        self.marks[place] = true;
        self.saves = self.saves.saturating_add(1);
    }

    /// Copy a user's saved state to `state`, and count the restore.
    pub fn restore(&mut self, user: User, state: &mut VState)
        requires { is_marked self.old.marks user ≡ true }
        ensures areas { self.new ≡ count_restore self.old }
        ensures state { state.new ≡ saved_state self.old user }
    {
        state.copy_from(&self.states[user.index()]);
        self.restores = self.restores.saturating_add(1);
    }

    /// Return a user's saved state, or the initial state if none is saved.
    pub fn peek(&self, user: User) -> VState
        ensures { result ≡ saved_state self.now user }
    {
        let place = user.index();
        let mut state = VState::new();
        if self.marks[place] {
            state.copy_from(&self.states[place]);
        }
        state
    }

    /// Write the 32 bytes of a vector register of a user's saved state, without a count. If no
    /// state is saved, save the initial state with this register.
    pub fn poke(&mut self, user: User, vreg: VReg, bytes: &[u8; 32])
        ensures areas { self.new ≡ with_saved user (with_register vreg bytes.now (saved_state self.old user)) self.old }
        ensures whole { (length self.old.states ≡ user_count) × (length self.old.marks ≡ user_count) }
    {
        let mut state = self.peek(user);
        state.file.set_register(vreg, &RegisterBytes::new(bytes));
        let place = user.index();
        self.states[place] = state;
        self.marks[place] = true;
    }

    /// Discard a user's saved state.
    pub fn clear(&mut self, user: User)
        ensures areas { self.new ≡ record self.old { marks = with_mark user false self.old.marks } }
        ensures whole { length self.old.marks ≡ user_count }
    {
        self.marks[user.index()] = false;
    }

    /// State that there is an area and a mark for each user, and do nothing.
    pub(crate) fn whole_law(&self)
        ensures states { length self.now.states ≡ user_count }
        ensures marks { length self.now.marks ≡ user_count }
    {
        let _ = self.states[0].vstart;
        let _ = self.marks[0];
    }

    /// State that the vector length of a user's saved or initial state is valid for its vector
    /// type, and do nothing.
    #[tactic(auto, unfolding(rv_model::specs::vector::State::initial_vector))]
    pub(crate) fn length_law(&self, user: User)
        ensures { IsConfiguration (saved_state self.now user).conf }
    {
        if self.marked(user) {
            self.states[user.index()].conf.length_law();
        } else {
            VConf::vill().length_law();
        }
    }

    /// Return the numbers of saves and restores.
    pub fn counts(&self) -> (u64, u64)
        ensures { result ≡ (self.now.saves, self.now.restores) }
    {
        (self.saves, self.restores)
    }
}
