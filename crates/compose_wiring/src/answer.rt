//! What feeds what.
use compose_model::Feeder;

/// What feeds a top of instances.
#[derive(Drop)]
pub struct Wiring {
    /// Row i: what feeds the input words of instance i, in their order; instances count from 0.
    pub rows: Vec<Vec<Feeder>>,
    /// What feeds the output word of the top.
    pub output: Feeder,
}
