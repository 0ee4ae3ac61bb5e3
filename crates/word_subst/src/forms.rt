//! The bits of a word as polynomials in the word.
ghost use Rattle.std.specs.Prelude.{◌≡◌, ◌<◌, ◌++◌, [], IfOk, OnOk};
ghost use Rattle.gf_basis.specs.BasisParts.{IsBasisOver, elements_of};
ghost use Rattle.poly_mixed.specs.Sum.{with_coefficient};
ghost use Rattle.word_subst.specs.Forms.{IsForm, AreForms};

use crate::univariate::Univariate;
use gf_basis::Basis;
use gf_field::Field;
use std::alloc::{AllocError, Global};

// Adds a power to lower ones, unless its coefficient is 0.
fn add_power(form: &mut Univariate, exponent: u64, c: u64) -> Result<(), AllocError>
    ensures { OnOk result (form.new ≡ form.old ++ with_coefficient exponent c []) }
{
    if c != 0 {
        form.push(exponent, c)?;
    }
    Ok(())
}

// The bit at a place: its linear form in the word.
fn form<F: Field>(
    alloc: Global,
    field: &F,
    basis: &Basis,
    place: u32,
) -> Result<Univariate, AllocError>
    requires over { IsBasisOver (F.degree field.now) (F.product field.now) basis.now }
    requires place { place < F.degree field.now }
    ensures { IfOk result (IsForm (F.degree field.now) (F.product field.now) (elements_of basis.now) place) }
{
    let linear = basis.linear_of(field, place);
    let mut form = Univariate::zero(alloc);
    for j in 0..field.k() {
        add_power(&mut form, 1 << j, linear[j as usize])?;
    }
    Ok(form)
}

/// The linear forms of all bits of a word in this basis, by place.
pub fn forms<F: Field>(
    alloc: Global,
    field: &F,
    basis: &Basis,
) -> Result<Vec<Univariate>, AllocError>
    requires over { IsBasisOver (F.degree field.now) (F.product field.now) basis.now }
    ensures { IfOk result (λ v. AreForms (F.degree field.now) (F.product field.now) (elements_of basis.now) v.items) }
{
    let mut list = Vec::new(alloc);
    for place in 0..field.k() {
        list.push(form(alloc, field, basis, place)?)?;
    }
    Ok(list)
}
