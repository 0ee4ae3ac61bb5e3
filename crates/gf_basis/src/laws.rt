//! Laws of bases, each on a function that does nothing.

ghost use Rattle.gf_basis.specs.Basis.{AreIndependentLists};
ghost use Rattle.gf_basis.specs.BasisFault.{HasOneListFault, HasOneNormalFault};
ghost use Rattle.gf_basis.specs.Dual.{HasOnlyDuals};

use gf_field::Field;

/// The bases are exactly the lists of k independent elements.
pub fn independent_lists<F: Field>(_field: &F)
    ensures { AreIndependentLists (F.degree _field.now) }
{}

/// A basis has at most one dual basis; the one that a `Basis` keeps is it.
pub fn only_duals<F: Field>(_field: &F)
    ensures { HasOnlyDuals (F.degree _field.now) (F.product _field.now) }
{}

/// A list has at most one `BasisFault`.
pub fn one_list_fault<F: Field>(_field: &F)
    ensures { HasOneListFault (F.degree _field.now) }
{}

/// An element has at most one `BasisFault` as the first of a normal basis.
pub fn one_normal_fault<F: Field>(_field: &F)
    ensures { HasOneNormalFault (F.degree _field.now) (F.product _field.now) }
{}
