//! The blocks that a top of instances uses: the block of each instance, and the circuit of each used block, flattened alone.
//! Where there is none, the first reason is given.
#![tactic(auto)]

mod block_fault;
mod block_laws;
mod circuit;
mod plan;
mod plan_fault;
mod plan_laws;
mod structure;
mod table;
mod used_circuits;
mod uses;

pub use block_fault::BlockFault;
pub use block_laws::blocks_have_one_circuit;
pub use circuit::block_circuit;
pub use plan::{BlockPlan, plan_blocks};
pub use plan_fault::PlanFault;
pub use plan_laws::one_plan_or_refusal;
