//! Laws that all words and held files have an outcome, as far as a command reads them: that words spell a command or none, and that
//! signatures, netlists, hierarchies, specifications and tables are taken or refused. No program calls these functions.
#![tactic(auto)]

mod circuits;
mod settings;
mod words;

pub use circuits::{
    some_circuit_or_fault, some_hierarchy_or_fault, some_specification_or_fault,
    some_table_file_or_fault,
};
pub use settings::{
    each_held_setting_is_sound, some_field_or_fault, some_file_or_fault, some_setting_or_fault,
    some_signed_or_fault,
};
pub use words::some_job_or_fault;
