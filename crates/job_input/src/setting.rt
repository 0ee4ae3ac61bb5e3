//! The setting of a job: a signature, and over its field the bases of its words.
ghost use Rattle.std.specs.Prelude.{◌≡◌, Ok, Err, IfOk, IfErr};
ghost use Rattle.outcome.specs.Outcome.{Returns, Within};
ghost use Rattle.gf_basis.specs.BasisParts.{IsBasisOver, elements_of};
ghost use Rattle.job_words.specs.Stop.{GivesBy};
ghost use Rattle.job_words.specs.declared.fault.Fault.TheVariants.{Signature};
ghost use Rattle.job_words.specs.declared.signature_fault.SignatureFault.{SignatureFault};
ghost use Rattle.job_words.specs.declared.stop.Stop.TheVariants.{Refused};
ghost use Rattle.job_input.specs.SettingOf.{BasisOf, WordBasis, BasesOf, BlocksHaveBases, feeds_within, place_within, basis_fault as fault_of_basis};
ghost use Rattle.job_input.specs.SignedIn.{SettingOver};
ghost use Rattle.job_input.specs.Setting.{elements_of_each, setting_value, AreBasesOver, AreSaid, IsReady};

use crate::poly_basis::PolyBasis;
use crate::signed::refused;
use gf_basis::{Basis, BasisFault};
use gf_field::Field;
use job_words::{SignatureFault, Stop};
use net_signature::Block;
use net_words::{BasisText, FeedText, Role, Source, WordText};
use std::alloc::Global;

/// A signature, and the bases of its words in their order.
#[derive(Drop)]
pub struct Setting {
    /// What the signature's text says.
    pub signature: net_signature::Signature,
    /// The basis of each word, the output word's among them.
    pub bases: Vec<Basis>,
}

/// The setting of a signature over its field, or the first fault: line by line that of the number of a word's bits, and of
/// its basis, for the words of the top and then for those of the blocks; and then the first feed from a place that is not
/// below the field's degree. One word of the signature is the output, at most eight are others, and all have names.
pub fn setting_over<F: Field>(
    alloc: Global,
    field: &F,
    signature: net_signature::Signature,
) -> Result<Setting, Stop>
    requires said { AreSaid signature }
    ensures gives { GivesBy (setting_value (F.degree field.now) (F.product field.now)) result (SettingOver (F.degree field.now) (F.product field.now) signature) ⊥ ⊥ }
    ensures ready { IfOk result (λ setting. IsReady (F.degree field.now) (F.product field.now) setting) }
    ensures own { IfOk result (λ setting. setting.signature ≡ signature) }
{
    let poly = PolyBasis {
        field,
        basis: Basis::poly(field),
    };
    let bases = match bases_of(alloc, &poly, signature.words()) {
        Ok(bases) => bases,
        Err(stop) => return Err(stop),
    };
    match judge_blocks(alloc, &poly, signature.blocks()) {
        Ok(()) => {}
        Err(stop) => return Err(stop),
    }
    match judge_feeds(field.k(), signature.feeds()) {
        Ok(()) => Ok(Setting { signature, bases }),
        Err(fault) => Err(refused(fault)),
    }
}

/// The bases of words over the field whose polynomial basis this is, line by line, or the first fault.
pub fn bases_of<F: Field>(
    alloc: Global,
    poly: &PolyBasis<'_, F>,
    words: &[WordText],
) -> Result<Vec<Basis>, Stop>
    ensures gives { GivesBy (λ bases. elements_of_each bases.items) result (Within Signature (BasesOf (F.degree poly.now.field.now) (F.product poly.now.field.now) words.now)) ⊥ ⊥ }
    ensures over { IfOk result (λ bases. AreBasesOver (F.degree poly.now.field.now) (F.product poly.now.field.now) bases.items) }
{
    let mut bases = Vec::new(alloc);
    for word in words {
        let basis = match word_basis(poly, word) {
            Ok(basis) => basis,
            Err(stop) => return Err(stop),
        };
        bases.push(basis)?;
    }
    Ok(bases)
}

// The bases of the words of blocks, which are judged and not kept.
fn judge_blocks<F: Field>(
    alloc: Global,
    poly: &PolyBasis<'_, F>,
    blocks: &[Block],
) -> Result<(), Stop>
    ensures { GivesBy (λ u. tt) result (Within Signature (BlocksHaveBases (F.degree poly.now.field.now) (F.product poly.now.field.now) blocks.now)) ⊥ ⊥ }
{
    for block in blocks {
        match bases_of(alloc, poly, block.words()) {
            Ok(_bases) => {}
            Err(stop) => return Err(stop),
        }
    }
    Ok(())
}

// The first feed whose place is not below k is refused.
fn judge_feeds(k: u32, feeds: &[FeedText]) -> Result<(), SignatureFault>
    ensures { Returns (feeds_within k feeds.now) result }
{
    for feed in feeds {
        if !is_within(k, &feed.source) {
            return Err(SignatureFault::Bits { line: feed.line });
        }
    }
    Ok(())
}

// Whether the place of a source is below k.
fn is_within(k: u32, source: &Source) -> bool
    ensures { result ≡ place_within k source.now }
{
    match source {
        Source::Zero | Source::One => true,
        Source::Bit { place, .. } => *place < k,
    }
}

// The basis of a word: first its number of bits counts. It takes no memory.
fn word_basis<F: Field>(poly: &PolyBasis<'_, F>, word: &WordText) -> Result<Basis, Stop>
    ensures gives { GivesBy elements_of result (Within Signature (WordBasis (F.degree poly.now.field.now) (F.product poly.now.field.now) word.now)) ⊥ ⊥ }
    ensures refused { IfErr result (λ stop. (fault : SignatureFault) × (stop ≡ Refused (Signature fault))) }
    ensures over { IfOk result (λ basis. IsBasisOver (F.degree poly.now.field.now) (F.product poly.now.field.now) basis) }
{
    let line = word.line;
    if word.role != Role::Fed && word.nets.as_slice().len() != poly.field.k() as usize {
        return Err(refused(SignatureFault::Bits { line }));
    }
    match basis_of(poly, &word.basis) {
        Ok(basis) => Ok(basis),
        Err(fault) => Err(refused(basis_fault(line, fault))),
    }
}

// The basis that a text names.
fn basis_of<F: Field>(poly: &PolyBasis<'_, F>, text: &BasisText) -> Result<Basis, BasisFault>
    ensures ok { IfOk result (λ basis. BasisOf (F.degree poly.now.field.now) (F.product poly.now.field.now) text.now (Ok (elements_of basis))) }
    ensures fault { IfErr result (λ fault. BasisOf (F.degree poly.now.field.now) (F.product poly.now.field.now) text.now (Err fault)) }
    ensures over { IfOk result (λ basis. IsBasisOver (F.degree poly.now.field.now) (F.product poly.now.field.now) basis) }
{
    match text {
        BasisText::Poly => Ok(poly.basis),
        BasisText::Normal { gamma } => Basis::normal(poly.field, *gamma),
        BasisText::Elements { list } => Basis::list(poly.field, list.as_slice()),
    }
}

// The fault of a basis in the line of this number.
fn basis_fault(line: u32, fault: BasisFault) -> SignatureFault
    ensures { result ≡ fault_of_basis line fault }
{
    match fault {
        BasisFault::Dependent => SignatureFault::Dependent { line },
        BasisFault::WrongCount { .. } => SignatureFault::Basis { line },
        BasisFault::BadElement { .. } => SignatureFault::Basis { line },
    }
}
