//! Laws that each text has an outcome, beside the readers' laws that it has one at most: signatures, netlists in BLIF,
//! structural Verilog and ASCII AIGER, and certificates. No program calls these functions.
#![tactic(auto)]

mod netlists;
mod texts;

pub use netlists::{
    items_of_texts_are_sound, some_aiger_net_or_fault, some_binding_or_fault, some_design_or_fault,
    some_flat_or_fault, some_module_or_fault, some_netlist_or_fault, some_verilog_net_or_fault,
};
pub use texts::{some_certificate_or_fault, some_signature_or_fault, some_verdict_or_fault};
