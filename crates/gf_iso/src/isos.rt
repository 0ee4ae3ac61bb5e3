//! Isomorphisms from a tower to a field of polynomials over 0 and 1.

ghost use Rattle.std.specs.Prelude.{◌≡◌, ℕ, ◌<◌, ◌+◌, ◌*◌, ◌^◌, ◌↔◌, [], ◌∷◌, length, slice_index, IsOk, IfOk};
ghost use Rattle.irreducible.specs.BitMatrix.{rows_of};
ghost use Rattle.irreducible.specs.Proved.{ring_of};
ghost use Rattle.gf_tower.specs.TowerParts.{base_of, coefficients_of, size_of as tower_size_of};
ghost use Rattle.gf_iso.specs.FieldParts.{degree_in, modulus_in, product_in};
ghost use Rattle.gf_iso.specs.Fits.{Fits};
ghost use Rattle.gf_iso.specs.Isomorphism.{IsIsoOf};
ghost use Rattle.gf_iso.specs.private.Fields.{IsTowerField};

use super::matrices::powers;
use super::roots::{base_root, tower_root};
use gf_field::{Field, Ring, Ring2k};
use gf_tower::Tower;
use irreducible::{BitMatrix, Proved};
use thiserror::Error;

/// An isomorphism from a tower of degree 2 to a field of polynomials over 0 and 1.
#[derive(Drop)]
pub struct Iso {
    images: BitMatrix,
    origins: BitMatrix,
    ghost same: { length (rows_of origins) ≡ length (rows_of images) },
}

/// Why there is no `Iso` between a field and a tower.
#[derive(Debug, Drop, Error)]
pub enum IsoFault {
    /// The tower's degree is not 2, its base has more than `2^16` elements, or the field has not as many elements as it.
    #[error("the fields do not fit")]
    Unfit,
}

// The images of the numbers 2^i: those of the powers of x, and then these times the image of Y.
fn images<F: Field>(field: &F, powers: &[u64], t: u64) -> [u64; 64]
    requires double { F.degree field.now ≡ length powers.now * 2 }
    requires element { t < 2 ^ F.degree field.now }
    requires elements { (j : ℕ) → slice_index powers.now j < 2 ^ F.degree field.now }
    ensures low { (j : ℕ) → j < length powers.now → slice_index result j ≡ slice_index powers.now j }
    ensures high { (j : ℕ) → j < length powers.now → slice_index result (length powers.now + j) ≡ F.product field.now t (slice_index powers.now j) }
    ensures elements { (j : ℕ) → slice_index result j < 2 ^ F.degree field.now }
    ensures whole { length result ≡ 64 }
{
    let n = powers.len();
    let table = field.times(t);
    let mut all = [0; 64];
    for i in 0..n {
        all[i] = powers[i];
    }
    for i in 0..n {
        all[n + i] = field.by(&table, powers[i]);
    }
    all
}

impl Iso {
    ghost use Rattle.gf_iso.specs.IsoParts.{IsIso, size_of, there_of, back_of};

    /// The isomorphism between these fields in which the base's x goes to the least root of the base's modulus, and Y to
    /// the least root of the tower's polynomial with its coefficients carried over. `Unfit` exactly where the tower's
    /// degree is not 2, its base has more than `2^16` elements, or `big` has not twice as many bits as the base.
    pub fn find(
        big: &Proved<Ring2k>,
        tower: &Proved<Tower<Proved<Ring2k>>>,
    ) -> Result<Iso, IsoFault>
        ensures accepted { IsOk result ↔ Fits (degree_in big.now) (degree_in (base_of (ring_of tower.now))) (tower_size_of (ring_of tower.now)) }
        ensures iso { IfOk result (IsIso (degree_in (base_of (ring_of tower.now))) (modulus_in (base_of (ring_of tower.now))) (coefficients_of (ring_of tower.now)) (product_in big.now)) }
        ensures size { IfOk result (λ iso. size_of iso ≡ degree_in big.now) }
    {
        let base = tower.ring().base();
        let n = base.k();
        let coefficients = tower.ring().coefficients();
        if coefficients.len() != 2 || n > 16 || big.k() != 2 * n {
            return Err(IsoFault::Unfit);
        }
        let modulus = base.ring().modulus() as u64;
        Ok(Iso::found(big, n, modulus, coefficients[0], coefficients[1]))
    }

    // the isomorphism between a field and a tower that fit
    fn found<F: Field>(field: &F, n: u32, modulus: u64, c0: u64, c1: u64) -> Iso
        requires tower { IsTowerField n modulus c0 c1 }
        requires double { F.degree field.now ≡ n * 2 }
        ensures iso { IsIsoOf n modulus (c0 ∷ c1 ∷ []) (F.product field.now) (there_of result) (back_of result) }
        ensures size { size_of result ≡ F.degree field.now }
    {
        let s = base_root(field, n, modulus);
        let powers = powers(field, s, n as usize);
        let powers = &powers[..n as usize];
        let t = tower_root(field, modulus, powers, s, c0, c1);
        let images = BitMatrix::new(&images(field, powers, t)[..2 * n as usize]);
        let origins = images.inverse().unwrap();
        Iso { images, origins }
    }

    /// The image in the big field of the tower's element `a`, which is below `2^(2n)`.
    pub fn to_big(&self, a: u64) -> u64
        requires { a < 2 ^ size_of self.now }
        ensures image { result ≡ there_of self.now a }
        ensures element { result < 2 ^ size_of self.now }
    {
        self.images.apply(a)
    }

    /// The element of the tower whose image in the big field is `a`, which is below `2^(2n)`.
    pub fn to_tower(&self, a: u64) -> u64
        requires { a < 2 ^ size_of self.now }
        ensures origin { result ≡ back_of self.now a }
        ensures element { result < 2 ^ size_of self.now }
    {
        self.origins.apply(a)
    }
}
