//! By which numbers multipliers are written: a shared one has a number, after a `let` line at its first pair.
ghost use Rattle.std.specs.Prelude.{◌≡◌, ◌+◌, ◌<◌, ◌≤◌, ◌++◌, ◌^◌, IfOk, OnOk};
ghost use Rattle.poly_mixed.specs.Labels.{bit_count};
ghost use Rattle.cert_make.specs.CertText.{text_of_lines};
ghost use Rattle.cert_make.specs.declared.marks.Mark.TheVariants.{Often};
ghost use Rattle.cert_make.specs.private.Keys.{KeyParts, key_text};
ghost use Rattle.cert_make.specs.private.TextSharing.{mark_at, named_by, lets_by, written_by, count_by, mark_by};

use crate::key::Key;
use crate::lines::add_let;
use crate::marks::{Mark, Marks};
use poly_mixed::Labels;
use std::alloc::{AllocError, Global};

/// What is known of the multipliers, and how many have a number.
#[derive(Drop)]
pub(crate) struct Sharing {
    pub(crate) marks: Marks,
    pub(crate) count: u64,
}

impl Sharing {
    // Writes the `let` line of a multiplier, and gives it the next number, which stands for it.
    fn share(
        &mut self,
        alloc: Global,
        out: &mut Vec<u8>,
        labels: &Labels,
        key: &Key,
    ) -> Result<Option<u64>, AllocError>
        requires room { self.old.count + 1 < 2 ^ 64 }
        requires place { key.now.place ≤ bit_count labels.now.words }
        ensures lines { OnOk result (out.new.items ≡ out.old.items ++ text_of_lines (lets_by (Some Often) self.old.count (key_text labels.now key.now))) }
        ensures written { IfOk result (λ n. named_by n (key_text labels.now key.now) ≡ written_by (Some Often) self.old.count (key_text labels.now key.now)) }
        ensures count { OnOk result (self.new.count ≡ self.old.count + 1) }
        ensures marks { OnOk result ((q : KeyParts) → mark_at self.new.marks q ≡ mark_by (Some Often) self.old.count key.now q (mark_at self.old.marks q)) }
    {
        let number = self.count;
        add_let(out, number, key, labels)?;
        self.marks.give(key.copied(alloc)?, number)?;
        self.count += 1;
        Ok(Some(number))
    }

    /// The number by which the multiplier of this key is written, where it is shared, after its `let` line where it is due.
    /// After running out of memory it is not used again.
    pub(crate) fn number_for(
        &mut self,
        alloc: Global,
        out: &mut Vec<u8>,
        labels: &Labels,
        key: &Key,
    ) -> Result<Option<u64>, AllocError>
        requires room { self.old.count + 1 < 2 ^ 64 }
        requires place { key.now.place ≤ bit_count labels.now.words }
        ensures lines { OnOk result (out.new.items ≡ out.old.items ++ text_of_lines (lets_by (mark_at self.old.marks key.now) self.old.count (key_text labels.now key.now))) }
        ensures written { IfOk result (λ n. named_by n (key_text labels.now key.now) ≡ written_by (mark_at self.old.marks key.now) self.old.count (key_text labels.now key.now)) }
        ensures count { OnOk result (self.new.count ≡ count_by (mark_at self.old.marks key.now) self.old.count) }
        ensures marks { OnOk result ((q : KeyParts) → mark_at self.new.marks q ≡ mark_by (mark_at self.old.marks key.now) self.old.count key.now q (mark_at self.old.marks q)) }
    {
        match self.marks.at(key) {
            Some(Mark::Often) => self.share(alloc, out, labels, key),
            Some(Mark::Number(number)) => Ok(Some(number)),
            Some(Mark::Once) | None => Ok(None),
        }
    }
}
