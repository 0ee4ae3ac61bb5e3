//! The bytes of a file.
ghost use Rattle.std.specs.Prelude.{◌≡◌, ◌≤◌, length, IfOk};
ghost use Rattle.outcome.specs.Outcome.{Within};
ghost use Rattle.job_words.specs.Stop.{bytes_of};
ghost use Rattle.job_words.specs.declared.fault.Fault.TheVariants.{File};
ghost use Rattle.job_input.specs.File.{Read};
ghost use Rattle.job_input.specs.Reads.{GivesOver};
ghost use Rattle.job_input.specs.private.Stops.{IsFileStop};

use job_io::{Shelf, ShelfFault};
use job_words::{Fault, FileFault, Stop};
use net_core::Name;
use std::alloc::Global;

const LIMIT: u32 = 67_108_864;

/// The bytes of a file, at most 67,108,864, or its fault.
pub fn read_file<S: Shelf>(alloc: Global, shelf: &mut S, name: &str) -> Result<Vec<u8>, Stop>
    ensures held { S.held shelf.new ≡ S.held shelf.old }
    ensures never_fall { (S.faults shelf.old ≤ S.faults shelf.new) × (S.misses shelf.old ≤ S.misses shelf.new) }
    ensures gives { GivesOver S.held S.misses S.faults shelf.old shelf.new bytes_of result (λ held. Within File (Read held name.now)) }
    ensures short { IfOk result (λ bytes. length bytes.items ≤ 67108864) }
{
    match shelf.read(alloc, name, LIMIT) {
        Ok(bytes) => Ok(bytes),
        Err(fault) => Err(file_stop(alloc, name, fault)),
    }
}

// Why no bytes come of a file.
fn file_stop(alloc: Global, name: &str, fault: ShelfFault) -> Stop
    ensures { IsFileStop name.now fault result }
{
    match fault {
        ShelfFault::Absent => match Name::new(alloc, name) {
            Ok(file) => Stop::Refused(Fault::File(FileFault::Absent { file })),
            Err(_) => Stop::OutOfMemory,
        },
        ShelfFault::TooLong { .. } => match Name::new(alloc, name) {
            Ok(file) => Stop::Refused(Fault::File(FileFault::TooLong { file })),
            Err(_) => Stop::OutOfMemory,
        },
        ShelfFault::Failed => Stop::Outside,
        ShelfFault::OutOfMemory => Stop::OutOfMemory,
    }
}
