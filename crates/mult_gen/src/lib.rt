//! Makers of netlists that multiply, square and add in a field of 2^k elements, and one changed gate; what makers ask of the
//! words of a signature, and the nets of these words.
#![tactic(auto)]

mod added_nets;
mod adders;
mod fault;
mod form;
mod multiplier;
mod mutation;
mod nets;
mod powers;
mod products;
mod squarers;

pub use added_nets::added_products;
pub use adders::adder;
pub use fault::MakeFault;
pub use form::{poly_ports, ports};
pub use multiplier::mastrovito;
pub use mutation::mutate;
pub use nets::{inputs, net_of, outer, outputs};
pub use powers::{has_bit, indeterminate, powers_of_x};
pub use products::bit_products;
pub use squarers::squarer;
