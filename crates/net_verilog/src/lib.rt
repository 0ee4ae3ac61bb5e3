//! Nets written in structural Verilog: the tokens of a text with their lines, and the readers of expressions, assignments and
//! instances of gates, which make the gates. Declarations and modules are read by `verilog_reader`.
#![tactic(auto)]

mod assign;
mod assign_list;
mod cursor;
mod declared;
mod expression;
mod fault;
mod gate_kind;
mod gates;
mod inputs;
mod instance;
mod kind;
mod laws;
mod operator;
mod parts;
mod piece;
mod sign;
mod stack;
mod table;
mod target;
mod target_net;
mod words;

pub use assign::read_assignment;
pub use assign_list::read_assignments;
pub use cursor::{Cursor, Token};
pub use declared::{Declared, Direction};
pub use expression::read_expression;
pub use fault::VerilogFault;
pub use gate_kind::{GateKind, fits, gate_of, gate_table};
pub use gates::{drive, fault_of, mentioned, settle};
pub use inputs::read_inputs;
pub use instance::read_instance;
pub use kind::Kind;
pub use laws::{
    assigned_net_has_the_value, one_assignment_or_fault, one_expression_or_fault,
    one_instance_or_fault, some_assignment_or_fault, some_expression_or_fault,
    some_instance_or_fault,
};
pub use operator::{Driver, Operator};
use operator::{Frame, Next, Start};
pub use parts::{is_sign, read_identifier, read_range, take};
pub use sign::Sign;
pub use table::Table;
pub use target::{bit_name, name_of, read_target};
pub use words::{is_end, is_open_index, left_out, text_of, wrong};
