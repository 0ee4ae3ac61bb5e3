//! The answers of the commands over tables and numbers of a field: `table`, `lift` and `iso`, each in a file of its own, from its
//! setting on.
#![tactic(auto)]

pub mod iso;
mod laws;
pub mod lift;
mod small_setting;
pub mod table;

pub use laws::written_tables_are_read_back;
