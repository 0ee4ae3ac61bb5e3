//! Why a walk ends early.
ghost use Rattle.std.specs.Prelude.{◌≡◌, ◌⊎◌};
ghost use Rattle.net_flat.specs.declared.flat_fault.FlatFault.TheVariants as faults;
ghost use Rattle.net_flat.specs.private.Stopping.{IsFaultBy};

use crate::FlatFault;
use net_core::NetFault;
use std::alloc::{AllocError, AllocFailed};
use std::marker::Model;

/// The four causes.
#[derive(Clone, Copy)]
pub enum Cause {
    TooManyNets,
    TooManyGates,
    TooManyInstances,
    OutOfMemory,
}

/// Why a walk ends before its last line. Contracts see the fault of flattening that it is. It takes one byte, where such a
/// fault has room for a loop of nets and a label, which each call on the way would move.
#[derive(Drop)]
pub struct Stop {
    pub cause: Cause,
}

impl Model for Stop {
    ghost use Rattle.net_flat.specs.declared.flat_fault.FlatFault.{FlatFault};
    ghost use Rattle.net_flat.specs.private.Stopping.{fault_in};

    ghost Value = { FlatFault };

    ghost view = { λ stop. fault_in stop.cause };
}

impl Stop {
    /// A net, or a gate or latch, is refused.
    pub fn of_fault(fault: NetFault) -> Stop
        requires { (fault ≡ NetFault.TooManyNets) ⊎ (fault ≡ NetFault.TooManyGates) ⊎ (fault ≡ NetFault.OutOfMemory) }
        ensures { IsFaultBy fault result }
    {
        match fault {
            NetFault::OutOfMemory => Stop {
                cause: Cause::OutOfMemory,
            },
            NetFault::TooManyNets => Stop {
                cause: Cause::TooManyNets,
            },
            _ => Stop {
                cause: Cause::TooManyGates,
            },
        }
    }

    /// The fault of flattening.
    pub fn into_fault(self) -> FlatFault
        ensures { result ≡ self }
    {
        match self.cause {
            Cause::TooManyNets => FlatFault::Net(NetFault::TooManyNets),
            Cause::TooManyGates => FlatFault::Net(NetFault::TooManyGates),
            Cause::TooManyInstances => FlatFault::TooManyInstances,
            Cause::OutOfMemory => FlatFault::OutOfMemory,
        }
    }
}

impl From<AllocError> for Stop {
    ghost from_gives = { λ _ e. e ≡ faults.OutOfMemory };

    fn from(_error: AllocError) -> Stop {
        Stop {
            cause: Cause::OutOfMemory,
        }
    }
}

impl<T: Drop> From<AllocFailed<T>> for Stop {
    ghost from_gives = { λ _ e. e ≡ faults.OutOfMemory };

    fn from(_error: AllocFailed<T>) -> Stop {
        Stop {
            cause: Cause::OutOfMemory,
        }
    }
}
