//! What a certificate says: its claim and its pairs.
ghost use Rattle.std.specs.Prelude.{◌≡◌, ◌<◌, ◌+◌, ◌^◌, length, slice_get, OnOk, Some};
ghost use Rattle.cert_check.specs.Certificate.{begun, with_pair, with_shared};
ghost use Rattle.cert_check.specs.private.Reading.{multiplier_in};
ghost use Rattle.cert_check.specs.private.Kept.{with_line, IsLineIn, IsNumbered};

use crate::line::{Line, Multiplier};
use poly_mixed::{Generator, Poly};
use std::alloc::{AllocError, Global};
use std::marker::Model;

// A generator with its multiplier.
#[derive(Drop)]
struct Entry {
    generator: Generator,
    multiplier: Multiplier,
}

/// The claim of a certificate and its pairs of generator and multiplier, in their order.
pub struct CertPairs {
    claim: Poly,
    shared: Vec<Poly>,
    entries: Vec<Entry>,
}

// By hand, so that a caller that lets one go makes one call, and not one for each part.
impl Drop for CertPairs {
    fn drop(self) {
        let CertPairs {
            claim,
            shared,
            entries,
        } = self;
        drop(claim);
        drop(shared);
        drop(entries);
    }
}

impl Model for CertPairs {
    ghost use Rattle.std.specs.Prelude.{length};
    ghost use Rattle.cert_check.specs.Certificate.{Certificate};
    ghost use Rattle.cert_check.specs.private.Kept.{certificate_of, AreEntries};

    ghost Value = { Certificate };

    ghost view = { λ c. certificate_of c.claim c.shared.items c.entries.items };

    ghost invariant = { λ c. AreEntries (length c.shared.items) c.entries.items };
}

impl CertPairs {
    /// The claim, in words alone.
    pub fn claim(&self) -> &Poly
        ensures { result.now.terms ≡ self.now.claim }
    {
        &self.claim
    }

    /// How many pairs there are.
    pub fn len(&self) -> u32
        ensures { result ≡ length self.now.pairs }
    {
        self.entries.len() as u32
    }

    /// The generator of pair n, below the number of pairs.
    pub fn generator(&self, n: u32) -> Generator
        requires { n < length self.now.pairs }
        ensures { (s : _) → slice_get self.now.pairs n ≡ Some s → result ≡ s.0 }
    {
        self.entries[n as usize].generator
    }

    /// The multiplier of pair n, below the number of pairs.
    pub fn multiplier(&self, n: u32) -> &Poly
        requires { n < length self.now.pairs }
        ensures { (s : _) → slice_get self.now.pairs n ≡ Some s → result.now.terms ≡ s.1 }
    {
        self.entries[n as usize]
            .multiplier
            .among(self.shared.as_slice())
    }

    // A claim without pairs.
    pub(crate) fn begun(alloc: Global, claim: Poly) -> CertPairs
        ensures { result ≡ begun claim.terms }
    {
        CertPairs {
            claim,
            shared: Vec::new(alloc),
            entries: Vec::new(alloc),
        }
    }

    // How many multipliers are shared.
    pub(crate) fn shares(&self) -> usize
        ensures { result ≡ length self.now.shared }
    {
        self.shared.len()
    }

    // Adds a pair. After running out of memory the pairs are not used again.
    fn add_pair(&mut self, generator: Generator, multiplier: Multiplier) -> Result<(), AllocError>
        requires multiplier { IsNumbered (length self.old.shared) multiplier }
        requires few { length self.old.pairs + 1 < 2 ^ 32 }
        ensures { OnOk result (self.new ≡ with_pair self.old generator (multiplier_in self.old.shared multiplier)) }
    {
        self.entries.push(Entry {
            generator,
            multiplier,
        })?;
        Ok(())
    }

    // Adds a shared multiplier. After running out of memory the pairs are not used again.
    fn share(&mut self, poly: Poly) -> Result<(), AllocError>
        ensures { OnOk result (self.new ≡ with_shared self.old poly.terms) }
    {
        self.shared.push(poly)?;
        Ok(())
    }

    // Adds what a line says. After running out of memory the pairs are not used again.
    pub(crate) fn add(&mut self, line: Line) -> Result<(), AllocError>
        requires { IsLineIn self.old line }
        ensures { OnOk result (self.new ≡ with_line self.old line) }
    {
        match line {
            Line::Pair(generator, multiplier) => self.add_pair(generator, multiplier),
            Line::Share(poly) => self.share(poly),
        }
    }
}
