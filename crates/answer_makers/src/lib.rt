//! The answers of the commands that make netlists: `make`, from its setting on, and `trial`.
#![tactic(auto)]

mod made_laws;
pub mod make;
pub mod trial;

pub use made_laws::made_texts_fit;
