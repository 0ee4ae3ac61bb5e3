//! A shelf of files in memory, some of whose reads fail.
ghost use Rattle.std.specs.Prelude.{◌≡◌, ◌≤◌, ◌<◌, ◌^◌, ◌↔◌, ℕ, None, Some, IsTrue, IsFalse, vec_len, IfOk, IsErrOf};
ghost use Rattle.std.specs.FinMap.{get};
ghost use Rattle.job_io.specs.Counts.{Rose, is_listed, next_of};
ghost use Rattle.job_io.specs.Shelf.{HasMoreThan, faults_after, files_of, misses_after};

use crate::counts::{is_listed, next_count};
use crate::pairs::read_pair;
use crate::shelf::count_read;
use crate::{Shelf, ShelfFault};
use std::alloc::Global;

/// Files in memory. The reads with the numbers in `failing` fail, counted from 1.
#[derive(Drop)]
pub struct MemShelf {
    pairs: Vec<(String, Vec<u8>)>,
    failing: Vec<u32>,
    reads: u64,
    faults: u64,
    misses: u64,
    ghost counts: { (faults < 2 ^ 64) × (misses < 2 ^ 64) },
}

impl MemShelf {
    ghost use Rattle.job_io.specs.MemShelf.{failing_reads, mem_faults, mem_files, mem_misses, mem_reads};

    /// A shelf that has not been read. Of two pairs with one name the first counts.
    pub fn new(pairs: Vec<(String, Vec<u8>)>, failing: Vec<u32>) -> MemShelf
        ensures held { mem_files result ≡ files_of pairs.items }
        ensures failing { failing_reads result ≡ failing.items }
        ensures reads { mem_reads result ≡ 0 }
        ensures faults { mem_faults result ≡ 0 }
        ensures misses { mem_misses result ≡ 0 }
    {
        MemShelf {
            pairs,
            failing,
            reads: 0,
            faults: 0,
            misses: 0,
        }
    }
}

impl Shelf for MemShelf {
    ghost use Rattle.job_io.specs.MemShelf.{failing_reads, mem_faults, mem_files, mem_misses, mem_reads};

    ghost held = { λ s. Some (mem_files s) };

    ghost faults = { λ s. mem_faults s };

    ghost misses = { λ s. mem_misses s };

    fn read(&mut self, alloc: Global, name: &str, limit: u32) -> Result<Vec<u8>, ShelfFault>
        ensures held { mem_files self.new ≡ mem_files self.old }
        ensures failing { failing_reads self.new ≡ failing_reads self.old }

        ensures reads { mem_reads self.new ≡ next_of (mem_reads self.old) }
        ensures faults { mem_faults self.new ≡ faults_after result (mem_faults self.old) }
        ensures misses { mem_misses self.new ≡ misses_after result (mem_misses self.old) }
        ensures faults_never_fall { mem_faults self.old ≤ mem_faults self.new }
        ensures misses_never_fall { mem_misses self.old ≤ mem_misses self.new }
        ensures counts { (mem_faults self.new < 2 ^ 64) × (mem_misses self.new < 2 ^ 64) }

        ensures bytes { IfOk result (λ bytes. get (mem_files self.old) name.now ≡ Some bytes.items) }
        ensures within { IfOk result (λ bytes. vec_len bytes ≤ limit) }

        // Exactly the reads with a listed number fail.
        ensures fails { IsErrOf result ShelfFault.Failed
            ↔ IsTrue (is_listed (failing_reads self.old) (next_of (mem_reads self.old))) }
        ensures failed { IsErrOf result ShelfFault.Failed → Rose (mem_faults self.old) (mem_faults self.new) }

        // Of the others, exactly those of a file that is not held are `Absent`.
        ensures finds_none { IsFalse (is_listed (failing_reads self.old) (next_of (mem_reads self.old)))
            → get (mem_files self.old) name.now ≡ None → IsErrOf result ShelfFault.Absent }
        ensures lacks { IsErrOf result ShelfFault.Absent → get (mem_files self.old) name.now ≡ None }
        ensures absent { IsErrOf result ShelfFault.Absent → Rose (mem_misses self.old) (mem_misses self.new) }

        // And exactly those of a file with more bytes than the limit are `TooLong`.
        ensures finds_more { IsFalse (is_listed (failing_reads self.old) (next_of (mem_reads self.old)))
            → HasMoreThan (Some (mem_files self.old)) name.now limit → IsErrOf result (ShelfFault.TooLong limit) }
        ensures too_long { (n : ℕ) → IsErrOf result (ShelfFault.TooLong n)
            → (n ≡ limit) × Rose (mem_misses self.old) (mem_misses self.new) × HasMoreThan (Some (mem_files self.old)) name.now limit }
    {
        self.reads = next_count(self.reads);
        let fails = is_listed(&self.failing, self.reads);
        let read = read_pair(alloc, &self.pairs, fails, name, limit);
        count_read(&read, &mut self.faults, &mut self.misses);
        read
    }
}
