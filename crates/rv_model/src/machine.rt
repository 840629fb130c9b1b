//! Users, the states of their programs, and laws about machines.
mod laws;
mod run_state;
mod stats;
mod user;

pub use laws::{
    absent_users_have_nothing, each_user_alone, others_can_be_purged, output_only_grows,
    preserved_configurations, preserved_registers, refusals_change_nothing, slices_add_up,
    small_scripts_print, turns_are_fair,
};
pub use run_state::RunState;
pub use stats::Stats;
pub use user::{USER_COUNT, User};
