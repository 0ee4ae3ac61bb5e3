//! Why nothing comes of a netlist that is refused.
ghost use Rattle.job_input.specs.private.Stops.{IsNetlistStop};

use crate::netlist::Refusal;
use job_words::{Fault, Stop};
use net_core::Name;
use std::alloc::Global;

/// Why nothing comes of the netlist of a file: its refusal, with the file's name.
pub(crate) fn netlist_stop(alloc: Global, file: &str, refusal: Refusal) -> Stop
    ensures { IsNetlistStop file.now refusal result }
{
    match refusal {
        Refusal::Fault(fault) => match Name::new(alloc, file) {
            Ok(file) => Stop::Refused(Fault::Netlist { file, fault }),
            Err(_) => Stop::OutOfMemory,
        },
        Refusal::OutOfMemory => Stop::OutOfMemory,
    }
}
