//! Laws of the definitions: on states of the golden vectors, the definition of a step leaves what QEMU left.
#![tactic(auto)]

mod legality;
mod list_laws;
mod memories;
mod memory;
mod scalar;
mod slice_bounds;
mod step_laws;
mod vector;

pub use legality::legality_agree;
pub use list_laws::lists_by_index;
pub use memories::memories_exist;
pub use memory::{faults_agree, loads_agree, scalar_accesses_agree, stores_agree};
pub use scalar::{branches_agree, control_registers_agree, scalars_agree};
pub use slice_bounds::slices_are_bounded;
pub use step_laws::vector_steps_by_legality;
pub use vector::{
    fixed_point_agree, masks_agree, one_width_agree, permutations_agree, reductions_agree,
    two_widths_agree, vector_types_agree,
};
