//! Laws that there is what the answers speak of: dual bases, isomorphisms, the pairs that eliminations record, and a first stage over the
//! bound of a sum of products and of a specification, where one is over it. No program calls these functions.
#![tactic(auto)]

mod fields;
mod stages;

pub use fields::{some_dual_basis, some_isomorphism};
pub use stages::{some_first_of_specification, some_first_of_sum, some_recorded_pairs};
