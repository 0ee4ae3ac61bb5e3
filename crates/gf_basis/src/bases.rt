//! Bases of a field.

ghost use Rattle.std.specs.Prelude.{◌≡◌, ℕ, ◌<◌, ◌≤◌, ◌^◌, ◌↔◌, ◌-◌, length, take, slice_index, IsOk, IfOk, IfErr, IsSome, IfSome};
ghost use Rattle.std.specs.Int.{bit_at};
ghost use Rattle.gf_field.specs.Element.{AreElements};
ghost use Rattle.gf_field.specs.Trace.{frobenius as frobenius_of};
ghost use Rattle.irreducible.specs.Span.{combination, IsIndependent};
ghost use Rattle.gf_basis.specs.Basis.{AreBits, IsBasisList, first_values};
ghost use Rattle.gf_basis.specs.Dual.{linear_value};
ghost use Rattle.gf_basis.specs.private.Coordinates.{AreCoordinates};

use super::duals::{conjugates, coordinates, trace_mask, trace_matrix};
use gf_field::{Field, filled, first_outside, is_element};
use irreducible::combined;
use thiserror::Error;

/// A basis of a field of `2^k` elements, and its dual basis.
#[derive(Clone, Copy)]
pub struct Basis {
    elements: [u64; 64],
    duals: [u64; 64],
    coordinates: [u64; 64],
    count: u32,
    ghost few: { count ≤ 64 },
    ghost inside: { AreElements count (take count elements) },
    ghost cached: { AreCoordinates (take count elements) coordinates },
}

/// Why a list is no basis; each fault comes after those before it.
#[derive(Debug, Drop, Error)]
pub enum BasisFault {
    /// The list has not k numbers.
    #[error("{count} elements do not make a basis")]
    WrongCount { count: u32 },
    /// The first number that is no element of the field.
    #[error("element {place} is not in the field")]
    BadElement { place: u32 },
    /// The elements are dependent over 0 and 1.
    #[error("the elements are dependent")]
    Dependent,
}

impl Basis {
    ghost use Rattle.gf_basis.specs.BasisParts.{elements_of, duals_of, IsBasisOver};
    ghost use Rattle.gf_basis.specs.BasisFault.{IsListFault, IsNormalFault, conjugates_of};

    /// The polynomial basis: element i is the number `2^i`.
    pub fn poly<F: Field>(field: &F) -> Basis
        ensures over { IsBasisOver (F.degree field.now) (F.product field.now) result }
        ensures elements { elements_of result ≡ first_values (F.degree field.now) (λ i. 2 ^ i) }
    {
        let k = field.k() as usize;
        let mut units = [0; 64];
        for i in 0..k {
            units[i] = 1 << i;
        }
        Basis::made(field, &units[..k]).unwrap()
    }

    /// The normal basis of `gamma`: element i is `gamma` squared i times. The faults are `BadElement` with place 0
    /// where `gamma` is not below 2^k, and `Dependent`.
    pub fn normal<F: Field>(field: &F, gamma: u64) -> Result<Basis, BasisFault>
        ensures accepted { IsOk result ↔ (gamma < 2 ^ F.degree field.now) × IsIndependent (conjugates_of (F.degree field.now) (F.product field.now) gamma) }
        ensures fault { IfErr result (λ fault. IsNormalFault (F.degree field.now) (F.product field.now) gamma fault) }
        ensures over { IfOk result (λ basis. IsBasisOver (F.degree field.now) (F.product field.now) basis) }
        ensures elements { IfOk result (λ basis. elements_of basis ≡ conjugates_of (F.degree field.now) (F.product field.now) gamma) }
    {
        if !is_element(field, gamma) {
            return Err(BasisFault::BadElement { place: 0 });
        }
        let all = conjugates(field, gamma);
        match Basis::made(field, &all[..field.k() as usize]) {
            Some(basis) => Ok(basis),
            None => Err(BasisFault::Dependent),
        }
    }

    /// The basis of these elements. The faults, in this order: `WrongCount` where there are not k, `BadElement` at the
    /// first that is not below 2^k, and `Dependent`.
    pub fn list<F: Field>(field: &F, elements: &[u64]) -> Result<Basis, BasisFault>
        ensures accepted { IsOk result ↔ IsBasisList (F.degree field.now) elements.now }
        ensures fault { IfErr result (λ fault. IsListFault (F.degree field.now) elements.now fault) }
        ensures over { IfOk result (λ basis. IsBasisOver (F.degree field.now) (F.product field.now) basis) }
        ensures elements { IfOk result (λ basis. elements_of basis ≡ elements.now) }
    {
        if elements.len() != field.k() as usize {
            let count = if elements.len() > u32::MAX as usize {
                u32::MAX
            } else {
                elements.len() as u32
            };
            return Err(BasisFault::WrongCount { count });
        }
        if let Some(place) = first_outside(field, elements) {
            return Err(BasisFault::BadElement {
                place: place as u32,
            });
        }
        match Basis::made(field, elements) {
            Some(basis) => Ok(basis),
            None => Err(BasisFault::Dependent),
        }
    }

    /// Element i, where i is below k.
    pub fn element(&self, i: u32) -> u64
        requires { i < length (elements_of self.now) }
        ensures { result ≡ slice_index (elements_of self.now) i }
    {
        self.elements[i as usize]
    }

    /// Element i of the dual basis, where i is below k.
    pub fn dual(&self, i: u32) -> u64
        requires { i < length (elements_of self.now) }
        ensures { result ≡ slice_index (duals_of self.now) i }
    {
        self.duals[i as usize]
    }

    /// The sum of the elements i with bit i of `bits` set; `bits` is below 2^k.
    pub fn element_of(&self, bits: u64) -> u64
        requires { bits < 2 ^ length (elements_of self.now) }
        ensures sum { result ≡ combination (elements_of self.now) bits }
        ensures element { result < 2 ^ length (elements_of self.now) }
    {
        combined(&self.elements[..self.count as usize], bits)
    }

    /// The bits, below 2^k, whose element this is, in the field that the basis was made over; `element` is below 2^k.
    pub fn bits_of<F: Field>(&self, _field: &F, element: u64) -> u64
        requires element { element < 2 ^ F.degree _field.now }
        requires over { IsBasisOver (F.degree _field.now) (F.product _field.now) self.now }
        ensures { AreBits (elements_of self.now) element result }
    {
        combined(&self.coordinates[..self.count as usize], element)
    }

    /// Bit i of a word as a linear form of its element, in the field that the basis was made over: entry j is the
    /// coefficient of the element squared j times, for j below k, and then come zeros.
    pub fn linear_of<F: Field>(&self, field: &F, i: u32) -> [u64; 64]
        requires place { i < F.degree field.now }
        requires over { IsBasisOver (F.degree field.now) (F.product field.now) self.now }
        ensures squares { (j : ℕ) → j < F.degree field.now → slice_index result j ≡ frobenius_of (F.product field.now) j (slice_index (duals_of self.now) i) }
        ensures zeros { (j : ℕ) → F.degree field.now ≤ j → slice_index result j ≡ 0 }
        ensures bit { (x bits : ℕ) → AreBits (elements_of self.now) x bits → linear_value (F.degree field.now) (F.product field.now) result x ≡ bit_at bits i }
    {
        conjugates(field, self.duals[i as usize])
    }

    // the basis of k elements, where they are independent
    fn made<F: Field>(field: &F, elements: &[u64]) -> Option<Basis>
        requires size { length elements.now ≡ F.degree field.now }
        requires inside { AreElements (F.degree field.now) elements.now }
        ensures found { IsSome result ↔ IsIndependent elements.now }
        ensures over { IfSome result (λ basis. IsBasisOver (F.degree field.now) (F.product field.now) basis) }
        ensures elements { IfSome result (λ basis. elements_of basis ≡ elements.now) }
    {
        let mask = trace_mask(field);
        let inverse = match trace_matrix(field, mask, elements).inverse() {
            Some(inverse) => inverse,
            None => return None,
        };
        let mut duals = [0; 64];
        for i in 0..elements.len() {
            duals[i] = combined(elements, inverse.apply(1 << i));
        }
        Some(Basis {
            elements: filled(elements),
            coordinates: coordinates(elements),
            duals,
            count: elements.len() as u32,
        })
    }
}
