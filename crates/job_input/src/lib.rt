//! What the files of a job give: the signature with its field and the bases of its words, a second signature, the circuit of
//! a netlist, a specification, and a table.
//! Each file is read, and then its text is taken; the first fault counts.
#![tactic(auto)]

mod bound;
mod circuit;
mod circuit_labels;
mod cycles;
mod files;
mod hierarchy;
mod labels;
mod laws;
mod modulus;
mod named_setting;
mod netlist;
mod poly_basis;
mod second;
mod setting;
mod signed;
mod specification;
mod stops;
mod table_file;

pub use bound::BoundNetlist;
pub use circuit::{read_circuit, read_netlist, unroll_netlist};
pub use circuit_labels::circuit_labels_for;
pub use files::read_file;
pub use hierarchy::read_hierarchy;
pub use labels::labels_for;
pub use laws::{
    each_setting_is_sound, faults_keep_to_their_line, one_circuit_or_fault, one_netlist_or_fault,
    one_setting_or_fault, one_specification_or_fault, one_table_file_or_fault,
};
pub use modulus::field_of_modulus;
pub use named_setting::NamedSetting;
pub use poly_basis::PolyBasis;
pub use second::read_second;
pub use setting::{Setting, bases_of, setting_over};
pub use signed::{Signed, read_signed};
pub use specification::read_specification;
pub use table_file::read_table_file;
