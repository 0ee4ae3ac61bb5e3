//! All words in place of their bits.
ghost use Rattle.std.specs.Prelude.{◌≡◌, ◌<◌, ◌^◌, length, IfOk, IfErr, OnOk};
ghost use Rattle.gf_basis.specs.BasisParts.{IsBasisOver, elements_of};
ghost use Rattle.poly_mixed.specs.Polynomial.{IsReduced};
ghost use Rattle.circuit_model.specs.Bases.{AreBases, circuit_in};
ghost use Rattle.word_subst.specs.InWords.{IsInWordBits, IsInWords, HasValuesOfBits, AreReplaced, IsReplaceRefusal, HoldsPairs};
ghost use Rattle.word_subst.specs.ReadRefusal.{IsWordRefusal};
ghost use Rattle.word_subst.specs.WordStages.{IsWholeMix, HasStagesWithin, IsStageFault, HasPairs};
ghost use Rattle.word_subst.specs.private.Held.{terms_of};
ghost use Rattle.word_subst.specs.private.Reading.{ReadsWord};

use crate::held::Held;
use crate::word::one_word;
use circuit_model::word_places;
use gf_basis::Basis;
use gf_field::Field;
use net_words::Combinational;
use poly_mixed::{Poly, ReduceFault, Steps, Term};
use std::alloc::Global;

// One word more, in the polynomial that the words before it leave.
fn next_word<F: Field, T: Steps>(
    alloc: Global,
    field: &F,
    basis: &Basis,
    word: u32,
    last: Held,
    bound: u32,
    steps: &mut T,
) -> Result<Poly, ReduceFault>
    requires over { IsBasisOver (F.degree field.now) (F.product field.now) basis.now }
    requires word { word < 8 }
    requires terms { IsReduced (F.degree field.now) (terms_of last) }
    requires few { length (terms_of last) < 2 ^ 32 }
    ensures read { ReadsWord (F.degree field.now) (F.product field.now) (elements_of basis.now) word (terms_of last) bound (T.steps steps.old) (T.steps steps.new) result }
    ensures fault { IfErr result (IsWordRefusal (F.degree field.now) (F.product field.now) (elements_of basis.now) word (terms_of last) bound) }
{
    let terms = last.terms(alloc)?;
    one_word(alloc, field, basis, word, &terms, bound, steps)
}

/// The polynomial in words that has at each input's words the value that `bits` has at the input's bits.
///
/// `bits`, the list of its terms in the order of a text, is in the bits of input, state and fed words alone, and has fewer than
/// 2^32 terms; there is one basis of this field for each word of the binding, and each word has k bits. The words are replaced
/// one by one in the order of the signature, each word's terms in the order of a text and each term's bits of the word by
/// rising place. For each of these bits the recorder gets one pair: the bit, and the product before it with the term's later
/// bits of the word. `TooManyTerms` comes exactly at the first stage of words of more than `bound` terms, with that number.
///
/// Where `bits` is the polynomial of the output, that of the mix of no words, the result is that of the mix of all words, and
/// the stages and the pairs are the circuit's.
pub fn to_words<F: Field, T: Steps>(
    alloc: Global,
    field: &F,
    circuit: &Combinational,
    bases: &[Basis],
    bits: Vec<Term>,
    bound: u32,
    steps: &mut T,
) -> Result<Poly, ReduceFault>
    requires k { circuit.now.binding.k ≡ F.degree field.now }
    requires bases { AreBases (F.degree field.now) (F.product field.now) circuit.now bases.now }
    requires bits { IsInWordBits (circuit_in (F.degree field.now) (F.product field.now) circuit.now bases.now) bits.items }
    requires few { length bits.items < 2 ^ 32 }
    ensures alone { IfOk result (λ q. IsInWords (circuit_in (F.degree field.now) (F.product field.now) circuit.now bases.now) q.terms) }
    ensures values { IfOk result (λ q. HasValuesOfBits (circuit_in (F.degree field.now) (F.product field.now) circuit.now bases.now) bits.items q.terms) }
    ensures replaced { IfOk result (λ q. AreReplaced (circuit_in (F.degree field.now) (F.product field.now) circuit.now bases.now) bits.items bound q.terms) }
    ensures first { IfErr result (IsReplaceRefusal (circuit_in (F.degree field.now) (F.product field.now) circuit.now bases.now) bits.items bound) }
    ensures told { OnOk result (HoldsPairs (circuit_in (F.degree field.now) (F.product field.now) circuit.now bases.now) bits.items bound (T.steps steps.old) (T.steps steps.new)) }
    ensures words { IfOk result (λ q. IsWholeMix (circuit_in (F.degree field.now) (F.product field.now) circuit.now bases.now) bits.items q.terms) }
    ensures within { OnOk result (HasStagesWithin (circuit_in (F.degree field.now) (F.product field.now) circuit.now bases.now) bits.items bound) }
    ensures fault { IfErr result (IsStageFault (circuit_in (F.degree field.now) (F.product field.now) circuit.now bases.now) bits.items bound) }
    ensures steps { OnOk result (HasPairs (circuit_in (F.degree field.now) (F.product field.now) circuit.now bases.now) bits.items (T.steps steps.old) (T.steps steps.new)) }
{
    let places = word_places(alloc, circuit.binding())?;
    let mut last = Held::Listed(bits);
    for w in 0..places.len() {
        let basis = &bases[places[w] as usize];
        let made = next_word(alloc, field, basis, w as u32, last, bound, steps)?;
        last = Held::Mapped(made);
    }
    let poly = last.into_poly(alloc)?;
    Ok(poly)
}
