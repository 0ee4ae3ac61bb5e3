//! The table of a file.
ghost use Rattle.std.specs.Prelude.{◌≡◌, ◌≤◌, ◌*◌, ◌^◌};
ghost use Rattle.outcome.specs.Outcome.{Within};
ghost use Rattle.lift_table.specs.Small.{IsSmall};
ghost use Rattle.job_words.specs.Stop.{bytes_of, GivesBy};
ghost use Rattle.job_words.specs.declared.fault.Fault.TheVariants.{Table};
ghost use Rattle.job_input.specs.Reads.{GivesOver};
ghost use Rattle.job_input.specs.TableIn.{TableOf, TableIn};

use crate::files::read_file;
use job_io::Shelf;
use job_words::{Fault, Stop, TableTextFault};
use lift_table::{TableFault, read_table};
use std::alloc::Global;

/// The table of a file for so many words of k bits, or the first fault: that of the file, or of the first line of its text
/// that has one.
pub fn read_table_file<S: Shelf>(
    alloc: Global,
    shelf: &mut S,
    k: u32,
    words: u32,
    file: &str,
) -> Result<Vec<u64>, Stop>
    requires { IsSmall k words }
    ensures held { S.held shelf.new ≡ S.held shelf.old }
    ensures never_fall { (S.faults shelf.old ≤ S.faults shelf.new) × (S.misses shelf.old ≤ S.misses shelf.new) }
    ensures gives { GivesOver S.held S.misses S.faults shelf.old shelf.new bytes_of result (λ held. TableIn held k (2 ^ (k * words)) file.now) }
{
    let text = match read_file(alloc, shelf, file) {
        Ok(text) => text,
        Err(stop) => return Err(stop),
    };
    table_of(alloc, k, words, &text)
}

// The table of a text.
fn table_of(alloc: Global, k: u32, words: u32, text: &[u8]) -> Result<Vec<u64>, Stop>
    requires { IsSmall k words }
    ensures { GivesBy bytes_of result (Within Table (TableOf k (2 ^ (k * words)) text.now)) ⊥ ⊥ }
{
    match read_table(alloc, text, k, words) {
        Ok(table) => Ok(table),
        Err(TableFault::Syntax { line }) => Err(refused(TableTextFault::Syntax { line })),
        Err(TableFault::TooLarge { line }) => Err(refused(TableTextFault::TooLarge { line })),
        Err(TableFault::OutOfMemory) => Err(Stop::OutOfMemory),
    }
}

// The refusal of a table.
fn refused(fault: TableTextFault) -> Stop
    ensures { result ≡ Stop.Refused (Table fault) }
{
    Stop::Refused(Fault::Table(fault))
}
