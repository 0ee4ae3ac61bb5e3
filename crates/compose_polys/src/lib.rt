//! The polynomials of the instances of a top, by level: each is its block's polynomial in words at those of what feeds the
//! instance, or a stage is the first over the bound. The law is that the polynomial of what feeds the output word is the output
//! of the flat top.
#![tactic(auto)]

mod feeds;
mod graph;
mod instance;
mod instance_laws;
mod instances;
mod levels;
mod names;
mod order;
mod order_laws;
mod output_laws;
mod terms;
mod wired;
mod words;

pub use feeds::poly_of;
pub use graph::wired_order;
pub use instance::instance_poly;
pub use instance_laws::instance_stages_have_values;
pub use instances::instance_polys;
pub use order::level_order;
pub use order_laws::level_orders_are_arranged;
pub use output_laws::{composed_polynomial_is_the_output, instances_in_order_are_composed};
pub use wired::wired_poly;
pub use words::word_polys;
