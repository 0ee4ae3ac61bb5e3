//! Netlists in BLIF: the models that a text describes, with their gates, latches and instances.
#![tactic(auto)]

mod bodies;
mod cells;
mod chains;
mod connection;
mod cover;
mod design;
mod fault;
mod formal_set;
mod formals;
mod in_place;
mod instances;
mod item;
mod item_list;
mod laws;
mod lines;
mod model_list;
mod once;
mod open_model;
mod pushes;
mod read;
mod reader;
mod repeats;
mod rows;
mod spelling;
mod statement;
mod table;
mod token;
mod token_list;
mod top;
mod word_run;

pub use connection::sides;
pub use design::Design;
pub use fault::BlifFault;
pub use formals::text_of;
pub use item::Item;
pub use item_list::ItemList;
pub use laws::{one_design_or_fault, table_by_bits};
pub use model_list::with_number;
pub use read::read_blif;
pub use table::Table;
pub use token::Token;
pub use token_list::TokenSlice;
pub use top::{is_instance, model_in};
