//! The net of a text in structural Verilog: declarations, statements and modules, over the parts that `net_verilog` reads.
#![tactic(auto)]

mod bits;
mod cuts;
mod declaring;
mod instance_list;
mod items;
mod laws;
mod module;
mod names;
mod plain_ports;
mod port_list;
mod ports;
mod ranges;
mod read;
mod scalars;
mod scope;
mod starts;

pub use bits::{bits_found, range_of};
pub use cuts::is_bit;
pub use declaring::declare;
pub use instance_list::read_instances;
pub use laws::{
    assigned_targets_have_the_values_of_their_expressions, one_declaration_or_fault,
    one_net_or_fault, one_statement_of_instances_or_fault,
};
pub use names::{read_name, read_names};
pub use ports::make_ports;
pub use read::read_verilog;
pub use scalars::Scalars;
pub use scope::Scope;
