//! The stages of compositions: those of the used blocks, and those of the instances as functions of the top's words. The laws
//! say what the bound on instances by level refuses, and that the first stage over it is the only one.
#![tactic(auto)]

mod block_laws;
mod composition_laws;
mod existence_laws;
mod instance_laws;
mod wired_laws;

pub use block_laws::{
    bound_stages_over, first_of_used_blocks, one_first_of_blocks, used_blocks_have_one_circuit,
};
pub use composition_laws::{first_of_blocks_and_instances, one_first_of_composition};
pub use existence_laws::some_first_of_composition;
pub use instance_laws::{
    cycles_have_no_levels, instance_blocks_have_one_polynomial,
    instances_by_level_have_these_stages, last_sums_are_the_values, one_first_of_instances,
    stages_of_instances_have_sizes, stages_of_instances_have_values,
};
pub use wired_laws::wired_tops_have_these_stages;
