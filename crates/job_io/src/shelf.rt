//! Shelves of files: what each of them promises, whatever it stands on.
ghost use Rattle.std.specs.Prelude.{◌≡◌, ◌≤◌, ◌<◌, ◌^◌, ℕ, Option, vec_len, IfOk, IsErrOf};
ghost use Rattle.job_io.specs.Counts.{Rose};
ghost use Rattle.job_io.specs.Shelf.{Files, Has, Lacks, HasMoreThan, faults_after, misses_after};
ghost use Rattle.job_io.specs.declared.shelf.ShelfFault.TheVariants.{OutOfMemory};

use crate::counts::next_count;
use std::alloc::{AllocError, Global};
use thiserror::Error;

/// Why a read gave no bytes.
#[derive(Clone, Copy, Debug, PartialEq, Eq, Error)]
pub enum ShelfFault {
    /// The shelf has no file of this name.
    #[error("the file is absent")]
    Absent,
    /// The file has more bytes than the read allows.
    #[error("the file has more than {limit} bytes")]
    TooLong { limit: u32 },
    /// The system, or a shelf that is made to fail, could not read the file.
    #[error("the file cannot be read")]
    Failed,
    /// There was no memory for the bytes.
    #[error("out of memory")]
    OutOfMemory,
}

impl From<AllocError> for ShelfFault {
    ghost from_gives = { λ _ e. e ≡ OutOfMemory };

    fn from(_error: AllocError) -> ShelfFault {
        ShelfFault::OutOfMemory
    }
}

/// Counts what a read gave: one fault more where it failed, one miss more where the file was absent or too long.
pub(crate) fn count_read(read: &Result<Vec<u8>, ShelfFault>, faults: &mut u64, misses: &mut u64)
    ensures faults { faults.new ≡ faults_after read.now faults.old }
    ensures misses { misses.new ≡ misses_after read.now misses.old }
    ensures counts { (faults.new < 2 ^ 64) × (misses.new < 2 ^ 64) }
{
    let (failed, missed) = (*faults, *misses);
    match read {
        Ok(_) => {}
        Err(ShelfFault::Absent) => *misses = next_count(missed),
        Err(ShelfFault::TooLong { .. }) => *misses = next_count(missed),
        Err(ShelfFault::Failed) => *faults = next_count(failed),
        Err(ShelfFault::OutOfMemory) => {}
    }
}

/// Files by name.
pub trait Shelf {
    /// From each name to the bytes of its file, where the shelf tells it.
    ghost held: { Self → Option Files };

    /// How often a read has failed.
    ghost faults: { Self → ℕ };

    /// How often a file was absent or too long.
    ghost misses: { Self → ℕ };

    /// All the bytes of a file, of which there are at most `limit`.
    fn read(&mut self, alloc: Global, name: &str, limit: u32) -> Result<Vec<u8>, ShelfFault>
        ensures held { held self.new ≡ held self.old }
        ensures faults_never_fall { faults self.old ≤ faults self.new }
        ensures misses_never_fall { misses self.old ≤ misses self.new }
        ensures counts { (faults self.new < 2 ^ 64) × (misses self.new < 2 ^ 64) }

        ensures bytes { IfOk result (λ bytes. Has (held self.old) name.now bytes.items) }
        ensures within { IfOk result (λ bytes. vec_len bytes ≤ limit) }

        ensures absent { IsErrOf result ShelfFault.Absent → Rose (misses self.old) (misses self.new) }
        ensures lacks { IsErrOf result ShelfFault.Absent → Lacks (held self.old) name.now }
        ensures too_long { (n : ℕ) → IsErrOf result (ShelfFault.TooLong n)
            → (n ≡ limit) × Rose (misses self.old) (misses self.new) × HasMoreThan (held self.old) name.now limit }
        ensures failed { IsErrOf result ShelfFault.Failed → Rose (faults self.old) (faults self.new) };
}
