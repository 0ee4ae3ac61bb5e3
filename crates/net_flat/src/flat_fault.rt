//! Faults of flattening.
use net_core::NetFault;
use thiserror::Error;

/// Why a model has no net.
#[derive(Debug, Drop, Error)]
pub enum FlatFault {
    /// The net passes a limit, or it is not sound.
    #[error("the net has a fault")]
    Net(NetFault),
    /// An instance would be the 1,048,577th that the walk enters.
    #[error("too many instances")]
    TooManyInstances,
    /// There was no memory for the net.
    #[error("out of memory")]
    OutOfMemory,
}
