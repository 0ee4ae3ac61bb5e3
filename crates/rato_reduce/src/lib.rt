//! The elimination of gates: from the output word to the polynomial of its element in the input bits, cut by cut,
//! with the exact bound on the terms of each cut.
#![tactic(auto)]

mod bit_term;
mod bucket;
mod buckets;
mod cut;
mod eliminate;
mod entries;
mod first_cut;
mod in_buckets;
mod key;
mod line;
mod listed;
mod merge;
mod monomials;
mod pair;
mod products;
mod ranks;
mod reduce;
mod row;
mod stop;
mod term;
mod united;

pub use reduce::reduce_bits;
