//! The lines of pairs, with a `let` line before the first pair of each shared multiplier.
ghost use Rattle.std.specs.Prelude.{◌≡◌, ◌+◌, ◌<◌, ◌≤◌, ◌^◌, ◌++◌, ℕ, [], List, IfOk, OnOk};
ghost use Rattle.std.specs.List.{AllByRecursion};
ghost use Rattle.poly_mixed.specs.Labels.{Labelling};
ghost use Rattle.poly_mixed.specs.Steps.{Step};
ghost use Rattle.cert_make.specs.CertText.{text_of_lines, lines_from};
ghost use Rattle.cert_make.specs.Writable.{IsWritablePair};
ghost use Rattle.cert_make.specs.private.Kept.{pair_of, pairs_of};
ghost use Rattle.cert_make.specs.private.Keys.{key_by, keys};
ghost use Rattle.cert_make.specs.private.TextSharing.{AddsLinesOf, AreMarks, SharesWith};

use crate::certificate::Entry;
use crate::copy::keys_of;
use crate::key::Key;
use crate::lines::{add_end, add_pair};
use crate::marks::Marks;
use crate::sharing::Sharing;
use poly_mixed::Labels;
use std::alloc::{AllocError, Global};

// How often each multiplier stands in a list.
fn marked(alloc: Global, list: &[Key]) -> Result<Marks, AllocError>
    ensures { (labels : Labelling) (pairs : List Step) → list.now ≡ keys labels pairs → IfOk result (AreMarks labels pairs []) }
{
    let mut marks = Marks::new(alloc);
    for key in list {
        marks.see(alloc, key)?;
    }
    Ok(marks)
}

// The lines of a pair, whose multiplier has this key.
fn add_entry(
    alloc: Global,
    out: &mut Vec<u8>,
    labels: &Labels,
    sharing: &mut Sharing,
    entry: &Entry,
    key: &Key,
) -> Result<(), AllocError>
    requires room { sharing.old.count + 1 < 2 ^ 64 }
    requires writable { (k : ℕ) × IsWritablePair labels.now k (pair_of entry.now) }
    requires known { key.now ≡ key_by labels.now (pair_of entry.now).1 }
    ensures lines { AddsLinesOf labels.now (pair_of entry.now) sharing.old result out.old.items out.new.items }
    ensures sharing { SharesWith labels.now (pair_of entry.now) sharing.old result sharing.new }
    ensures room { OnOk result (sharing.new.count ≤ sharing.old.count + 1) }
{
    let number = sharing.number_for(alloc, out, labels, key)?;
    add_pair(out, entry.generator, labels, number, key)
}

// The lines of pairs, and the last line.
pub(crate) fn add_pairs(
    alloc: Global,
    out: &mut Vec<u8>,
    labels: &Labels,
    entries: &[Entry],
) -> Result<(), AllocError>
    requires { (k : ℕ) × AllByRecursion (IsWritablePair labels.now k) (pairs_of entries.now) }
    ensures { OnOk result (out.new.items ≡ out.old.items ++ text_of_lines (lines_from labels.now (pairs_of entries.now) [] (pairs_of entries.now))) }
{
    let list = keys_of(alloc, entries, labels)?;
    let keys = list.as_slice();
    let marks = marked(alloc, keys)?;
    let mut sharing = Sharing { marks, count: 0 };
    for (i, entry) in entries.iter().enumerate() {
        add_entry(alloc, out, labels, &mut sharing, entry, &keys[i])?;
    }
    add_end(out)
}
