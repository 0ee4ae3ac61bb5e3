//! Any field that a modulus and one or two tower steps name.

ghost use Rattle.std.specs.Prelude.{◌≡◌, ◌*◌, ◌↔◌, ◌<◌, List, ℕ, length, IsOk, IfOk, IfErr};
ghost use Rattle.gf_field.specs.Bit.{bit_mul};
ghost use Rattle.gf_field.specs.Quotient.{product as quotient_product};
ghost use Rattle.gf_field.specs.Ring2k.{degree_of, modulus_of};
ghost use Rattle.irreducible.specs.Proved.{ring_of};
ghost use Rattle.gf_tower.specs.TowerParts.{base_of, coefficients_of, size_of};
ghost use Rattle.gf_tower.specs.FieldName.{IsFieldModulus, IsFieldOver, IsFieldName, tower_product};
ghost use Rattle.gf_tower.specs.private.OverFault.{IsOverFault};

use super::towers::{Tower, TowerFault};
use gf_field::{Field, Ring2k};
use irreducible::Proved;
use thiserror::Error;

/// A field of polynomials over 0 and 1, a tower over one, or a tower over that tower.
#[derive(Drop)]
pub enum AnyField {
    Base(Proved<Ring2k>),
    Tower(Proved<Tower<Proved<Ring2k>>>),
    Upper(Proved<Tower<Proved<Tower<Proved<Ring2k>>>>>),
}

/// Why a modulus and coefficients name no field; each fault comes after those before it.
#[derive(Debug, Drop, Error)]
pub enum FieldFault {
    /// The modulus has not degree 1 to 64.
    #[error("the degree of the modulus is not 1 to 64")]
    BadDegree,
    /// The modulus is reducible over 0 and 1.
    #[error("the modulus is not irreducible")]
    NotIrreducible,
    /// There are fewer than 2 coefficients, or the tower would have more than 64 bits.
    #[error("the number of coefficients does not fit")]
    BadLength,
    /// The first coefficient that is no element of the base.
    #[error("coefficient {place} is no element of the base")]
    BadCoefficient { place: u32 },
    /// The tower's polynomial is reducible over the base.
    #[error("the tower polynomial is not irreducible")]
    TowerNotIrreducible,
    /// There are fewer than 2 coefficients of the second step, or that tower would have more than 64 bits.
    #[error("the number of coefficients of the second step does not fit")]
    UpperBadLength,
    /// The first coefficient of the second step that is no element of the first tower.
    #[error("coefficient {place} of the second step is no element of the first tower")]
    UpperBadCoefficient { place: u32 },
    /// The polynomial of the second step is reducible over the first tower.
    #[error("the polynomial of the second step is not irreducible")]
    UpperNotIrreducible,
}

// The tower over a field, as a field; no fault of a tower means that its polynomial is reducible.
fn proved_over<F: Field + Drop>(
    base: F,
    coefficients: &[u64],
) -> Result<Proved<Tower<F>>, Option<TowerFault>>
    ensures fault { IfErr result (λ fault. IsOverFault (F.degree base) (F.product base) coefficients.now fault) }
    ensures field { IfOk result (λ field. IsFieldOver (F.degree base) (F.product base) coefficients.now) }
    ensures base { IfOk result (λ field. base_of (ring_of field) ≡ base) }
    ensures coefficients { IfOk result (λ field. coefficients_of (ring_of field) ≡ coefficients.now) }
    ensures size { IfOk result (λ field. size_of (ring_of field) ≡ length coefficients.now) }
{
    match Tower::new(base, coefficients) {
        Err((fault, _)) => Err(Some(fault)),
        Ok(tower) => match Proved::new(tower) {
            Err(_) => Err(None),
            Ok(field) => Ok(field),
        },
    }
}

impl AnyField {
    ghost use Rattle.gf_tower.specs.AnyField.{IsMadeOf};
    ghost use Rattle.gf_tower.specs.FieldFault.{IsFieldFault, HasTower};

    /// The field of this modulus, the tower over it with these coefficients, or the tower over that one with those of
    /// `upper`; no coefficients mean no step.
    pub fn new(modulus: u128, tower: &[u64], upper: &[u64]) -> Result<AnyField, FieldFault>
        requires steps { length tower.now ≡ 0 → length upper.now ≡ 0 }
        ensures accepted { IsOk result ↔ IsFieldName modulus tower.now upper.now }
        ensures fault { IfErr result (λ fault. IsFieldFault modulus tower.now upper.now fault) }
        ensures made { IfOk result (λ field. IsMadeOf field modulus tower.now upper.now) }
    {
        let base = match AnyField::proved_base(modulus) {
            Ok(base) => base,
            Err(fault) => return Err(fault),
        };
        if tower.is_empty() {
            return Ok(AnyField::Base(base));
        }
        let field = match proved_over(base, tower) {
            Ok(field) => field,
            Err(fault) => return Err(AnyField::tower_fault(fault)),
        };
        if upper.is_empty() {
            return Ok(AnyField::Tower(field));
        }
        match proved_over(field, upper) {
            Ok(field) => Ok(AnyField::Upper(field)),
            Err(fault) => Err(AnyField::upper_fault(fault)),
        }
    }

    // the field of this modulus
    fn proved_base(modulus: u128) -> Result<Proved<Ring2k>, FieldFault>
        ensures fault { IfErr result (λ fault. (cs us : List ℕ) → IsFieldFault modulus cs us fault) }
        ensures field { IfOk result (λ field. IsFieldModulus (degree_of (ring_of field)) modulus) }
        ensures modulus { IfOk result (λ field. modulus_of (ring_of field) ≡ modulus) }
    {
        match Ring2k::new(modulus) {
            Err(_) => Err(FieldFault::BadDegree),
            Ok(ring) => match Proved::new(ring) {
                Err(_) => Err(FieldFault::NotIrreducible),
                Ok(field) => Ok(field),
            },
        }
    }

    // the fault of a first step
    fn tower_fault(fault: Option<TowerFault>) -> FieldFault
        ensures { (d g : ℕ) (cs us : List ℕ) → IsFieldModulus d g → 0 < length cs → IsOverFault d (quotient_product 1 d bit_mul g) cs fault → IsFieldFault g cs us result }
    {
        match fault {
            Some(TowerFault::BadLength) => FieldFault::BadLength,
            Some(TowerFault::BadCoefficient { place }) => FieldFault::BadCoefficient { place },
            None => FieldFault::TowerNotIrreducible,
        }
    }

    // the fault of a second step
    fn upper_fault(fault: Option<TowerFault>) -> FieldFault
        ensures { (d g : ℕ) (cs us : List ℕ) → HasTower d g cs → 0 < length us → IsOverFault (d * length cs) (tower_product d g cs) us fault → IsFieldFault g cs us result }
    {
        match fault {
            Some(TowerFault::BadLength) => FieldFault::UpperBadLength,
            Some(TowerFault::BadCoefficient { place }) => FieldFault::UpperBadCoefficient { place },
            None => FieldFault::UpperNotIrreducible,
        }
    }
}
