//! One term with all its bits of the word read from the word.
ghost use Rattle.std.specs.Prelude.{◌≡◌, ◌≢◌, ◌<◌, ◌^◌, IfErr, OnOk};
ghost use Rattle.std.specs.List.{AllByRecursion};
ghost use Rattle.std.specs.List.Sorted.{IsStrictlySortedBy};
ghost use Rattle.std.specs.Map.{keys_of};
ghost use Rattle.gf_basis.specs.BasisParts.{elements_of};
ghost use Rattle.poly_mixed.specs.Monomial.{text_cmp};
ghost use Rattle.poly_mixed.specs.Polynomial.{IsElement, IsTerm};
ghost use Rattle.word_subst.specs.Forms.{AreForms};
ghost use Rattle.word_subst.specs.Prefix.{AreProducts};
ghost use Rattle.word_subst.specs.Spread.{total, IsGroup};
ghost use Rattle.word_subst.specs.Rest.{AddsTerm};
ghost use Rattle.word_subst.specs.ReadRefusal.{IsTermRefusal};
ghost use Rattle.word_subst.specs.private.Reading.{IsFollowed};

use crate::multiple::scaled;
use crate::products::BitProducts;
use crate::rest::{own_ranks, rest};
use crate::sums::Sums;
use crate::univariate::Univariate;
use gf_basis::Basis;
use gf_field::Field;
use poly_mixed::{ReduceFault, Term};
use std::alloc::{AllocError, Global};

// Begins anew where the term has another power of the word than the term before.
fn restart<F: Field>(
    alloc: Global,
    field: &F,
    _basis: &Basis,
    word: u32,
    start: u64,
    bound: u32,
    products: &mut BitProducts,
) -> Result<(), AllocError>
    requires start { IsElement (F.degree field.now) start }
    requires products { AreProducts (F.degree field.now) (F.product field.now) (elements_of _basis.now) word bound products.old }
    ensures products { OnOk result (AreProducts (F.degree field.now) (F.product field.now) (elements_of _basis.now) word bound products.new) }
    ensures start { OnOk result (products.new.start ≡ start) }
{
    if products.start() == start {
        return Ok(());
    }
    *products = BitProducts::new(alloc, field, word, start, bound)?;
    Ok(())
}

/// Goes on to a term, which has this number. The fault is its first product of more than `bound` terms.
pub fn follow_term<F: Field>(
    alloc: Global,
    field: &F,
    basis: &Basis,
    forms: &[Univariate],
    word: u32,
    number: u32,
    term: &Term,
    bound: u32,
    products: &mut BitProducts,
) -> Result<(), ReduceFault>
    requires word { word < 8 }
    requires forms { AreForms (F.degree field.now) (F.product field.now) (elements_of basis.now) forms.now }
    requires term { IsTerm (F.degree field.now) term.now }
    requires some { term.now.1 ≢ 0 }
    requires products { AreProducts (F.degree field.now) (F.product field.now) (elements_of basis.now) word bound products.old }
    ensures followed { OnOk result (IsFollowed (F.degree field.now) (F.product field.now) (elements_of basis.now) word term.now bound products.new) }
    ensures fault { IfErr result (IsTermRefusal (F.degree field.now) (F.product field.now) (elements_of basis.now) word term.now number bound) }
{
    let start = term.mono().exponents()[word as usize];
    restart(alloc, field, basis, word, start, bound, products)?;
    let own = own_ranks(alloc, term.mono().bits(), field.k(), word)?;
    products.follow(alloc, field, basis, forms, word, &own, number, bound)?;
    Ok(())
}

/// Adds a term, read from the word by its products, to the sum of the terms before.
pub fn add_term<F: Field>(
    alloc: Global,
    field: &F,
    _basis: &Basis,
    word: u32,
    term: &Term,
    _bound: u32,
    products: &BitProducts,
    sums: &mut Sums,
) -> Result<(), AllocError>
    requires word { word < 8 }
    requires followed { IsFollowed (F.degree field.now) (F.product field.now) (elements_of _basis.now) word term.now _bound products.now }
    requires groups { AllByRecursion (IsGroup word (F.degree field.now)) sums.old }
    requires few { total sums.old < 2 ^ 32 }
    ensures groups { OnOk result (AllByRecursion (IsGroup word (F.degree field.now)) sums.new) }
    ensures ordered { OnOk result (IsStrictlySortedBy text_cmp (keys_of sums.new)) }
    ensures values { OnOk result (AddsTerm (F.degree field.now) (F.product field.now) (elements_of _basis.now) word term.now sums.old sums.new) }
{
    let own = products.ranks();
    let part = scaled(alloc, field, products.at(own.len()), term.coefficient())?;
    let others = rest(alloc, term.mono(), field.k(), word)?;
    sums.add(alloc, field, word, others, part)
}
