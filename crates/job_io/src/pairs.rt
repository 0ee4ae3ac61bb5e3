//! Lists of pairs of a name and bytes, in which the first pair of a name counts.
ghost use Rattle.std.specs.Prelude.{◌≡◌};
ghost use Rattle.std.specs.Option.{option_copied};
ghost use Rattle.std.specs.FinMap.{get};
ghost use Rattle.job_io.specs.Shelf.{files_of};
ghost use Rattle.job_io.specs.private.Reads.{Gives};

use crate::ShelfFault;
use std::alloc::Global;

// The bytes of the first pair with this name.
fn find<'a>(pairs: &'a [(String, Vec<u8>)], name: &str) -> Option<&'a [u8]>
    ensures { option_copied result ≡ get (files_of pairs.now) name.now }
{
    for pair in pairs {
        if name == pair.0.as_str() {
            return Some(pair.1.as_slice());
        }
    }
    None
}

/// A read from these pairs, unless it is to fail.
pub fn read_pair(
    alloc: Global,
    pairs: &[(String, Vec<u8>)],
    fails: bool,
    name: &str,
    limit: u32,
) -> Result<Vec<u8>, ShelfFault>
    ensures { Gives fails (get (files_of pairs.now) name.now) limit result }
{
    if fails {
        return Err(ShelfFault::Failed);
    }
    let Some(bytes) = find(pairs, name) else {
        return Err(ShelfFault::Absent);
    };
    if bytes.len() > limit as usize {
        return Err(ShelfFault::TooLong { limit });
    }
    match bytes.to_vec(alloc) {
        Ok(bytes) => Ok(bytes),
        Err(_) => Err(ShelfFault::OutOfMemory),
    }
}
