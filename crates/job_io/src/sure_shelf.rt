//! A shelf of files in memory of which no read fails.
ghost use Rattle.std.specs.Prelude.{◌≡◌, ◌≤◌, ◌<◌, ◌^◌, ℕ, None, Some, vec_len, IfOk, IsErrOf};
ghost use Rattle.std.specs.FinMap.{get};
ghost use Rattle.job_io.specs.Counts.{Rose};
ghost use Rattle.job_io.specs.Shelf.{HasMoreThan, files_of, misses_after};

use crate::pairs::read_pair;
use crate::shelf::count_read;
use crate::{Shelf, ShelfFault};
use std::alloc::Global;

/// Files in memory, of which no read fails.
#[derive(Drop)]
pub struct SureShelf {
    pairs: Vec<(String, Vec<u8>)>,
    misses: u64,
    ghost counts: { misses < 2 ^ 64 },
}

impl SureShelf {
    ghost use Rattle.job_io.specs.SureShelf.{sure_files, sure_misses};

    /// A shelf that has not been read. Of two pairs with one name the first counts.
    pub fn new(pairs: Vec<(String, Vec<u8>)>) -> SureShelf
        ensures held { sure_files result ≡ files_of pairs.items }
        ensures misses { sure_misses result ≡ 0 }
    {
        SureShelf { pairs, misses: 0 }
    }
}

impl Shelf for SureShelf {
    ghost use Rattle.job_io.specs.SureShelf.{sure_files, sure_misses};

    ghost held = { λ s. Some (sure_files s) };

    ghost faults = { λ _. 0 };

    ghost misses = { λ s. sure_misses s };

    fn read(&mut self, alloc: Global, name: &str, limit: u32) -> Result<Vec<u8>, ShelfFault>
        ensures held { sure_files self.new ≡ sure_files self.old }
        ensures misses { sure_misses self.new ≡ misses_after result (sure_misses self.old) }
        ensures misses_never_fall { sure_misses self.old ≤ sure_misses self.new }
        ensures counts { sure_misses self.new < 2 ^ 64 }

        ensures bytes { IfOk result (λ bytes. get (sure_files self.old) name.now ≡ Some bytes.items) }
        ensures within { IfOk result (λ bytes. vec_len bytes ≤ limit) }

        ensures failed { ¬ IsErrOf result ShelfFault.Failed }
        ensures finds_none { get (sure_files self.old) name.now ≡ None → IsErrOf result ShelfFault.Absent }
        ensures lacks { IsErrOf result ShelfFault.Absent → get (sure_files self.old) name.now ≡ None }
        ensures absent { IsErrOf result ShelfFault.Absent → Rose (sure_misses self.old) (sure_misses self.new) }
        ensures finds_more { HasMoreThan (Some (sure_files self.old)) name.now limit
            → IsErrOf result (ShelfFault.TooLong limit) }
        ensures too_long { (n : ℕ) → IsErrOf result (ShelfFault.TooLong n)
            → (n ≡ limit) × Rose (sure_misses self.old) (sure_misses self.new) × HasMoreThan (Some (sure_files self.old)) name.now limit }
    {
        let read = read_pair(alloc, &self.pairs, false, name, limit);
        let mut faults = 0;
        count_read(&read, &mut faults, &mut self.misses);
        read
    }
}
