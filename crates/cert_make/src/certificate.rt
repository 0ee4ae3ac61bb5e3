//! The recorder of an engine's steps.
ghost use Rattle.std.specs.Prelude.{◌≡◌, ◌++◌, ◌∷◌, ℕ, [], List, Some, IsTrue, IfOk, OnOk};
ghost use Rattle.poly_mixed.specs.Steps.{Tells};
ghost use Rattle.cert_make.specs.CertText.{cert_text};
ghost use Rattle.cert_make.specs.Writable.{IsWritable};
ghost use Rattle.cert_make.specs.private.Kept.{pair_of};

use crate::lines::add_claim;
use crate::only::only_term;
use crate::pairs::add_pairs;
use poly_mixed::{Generator, Labels, Poly, Steps, Term};
use std::alloc::{AllocError, Global};
use std::marker::Model;

// A generator with its multiplier: the coefficient and the bit of the only term, where `only_term` finds it, and else the terms.
#[derive(Drop)]
pub(crate) struct Entry {
    pub(crate) generator: Generator,
    // 0 where the terms are kept
    pub(crate) coefficient: u64,
    pub(crate) rank: Option<u32>,
    pub(crate) terms: Vec<Term>,
}

impl Entry {
    // Of a polynomial.
    fn new(alloc: Global, generator: Generator, multiplier: &Poly) -> Result<Entry, AllocError>
        ensures { IfOk result (λ e. pair_of e ≡ (generator, multiplier.now.terms)) }
    {
        match only_term(multiplier) {
            Some(form) => Ok(Entry {
                generator,
                coefficient: form.0,
                rank: form.1,
                terms: Vec::new(alloc),
            }),
            None => {
                let terms = multiplier.terms(alloc)?;
                Ok(Entry {
                    generator,
                    coefficient: 0,
                    rank: None,
                    terms,
                })
            }
        }
    }
}

/// Records steps and tells them: contracts see it as the list of its pairs.
#[derive(Drop)]
pub struct Certificate {
    entries: Vec<Entry>,
    alloc: Global,
}

impl Model for Certificate {
    ghost use Rattle.std.specs.Prelude.{List};
    ghost use Rattle.poly_mixed.specs.Steps.{Step};
    ghost use Rattle.cert_make.specs.private.Kept.{pairs_of};

    ghost Value = { List Step };

    ghost view = { λ c. pairs_of c.entries.items };
}

impl Certificate {
    /// No pairs. It takes no memory.
    pub fn new(alloc: Global) -> Certificate
        ensures { result ≡ [] }
    {
        Certificate {
            entries: Vec::new(alloc),
            alloc,
        }
    }

    /// The text in version 2 of a claim and the recorded pairs, whose variables all have names in the labels; each
    /// polynomial is reduced. A multiplier of at least two pairs stands in a `let` line directly before the first of them.
    pub fn write(&self, alloc: Global, claim: &Poly, labels: &Labels) -> Result<Vec<u8>, AllocError>
        requires { (k : ℕ) × IsWritable labels.now k claim.now.terms self.now }
        ensures { IfOk result (λ v. v.items ≡ cert_text labels.now claim.now.terms self.now) }
    {
        let mut out = Vec::from_slice(alloc, b"gfcert 2\n")?;
        add_claim(alloc, &mut out, claim, labels)?;
        add_pairs(alloc, &mut out, labels, self.entries.as_slice())?;
        Ok(out)
    }
}

impl Steps for Certificate {
    ghost steps = { λ c. Some c };

    fn tells(&self) -> bool
        ensures { IsTrue result }
    {
        true
    }

    fn step(&mut self, generator: Generator, multiplier: &Poly) -> Result<(), AllocError>
        ensures recorded { OnOk result (self.new ≡ self.old ++ (generator, multiplier.now.terms) ∷ []) }
        ensures told { OnOk result (Tells (Some self.old) (Some self.new) ((generator, multiplier.now.terms) ∷ [])) }
    {
        let entry = Entry::new(self.alloc, generator, multiplier)?;
        self.entries.push(entry)?;
        Ok(())
    }
}
