//! The polynomials over a field modulo a monic one.

ghost use Rattle.std.specs.Prelude.{◌≡◌, ◌<◌, ◌≤◌, ◌*◌, ◌/◌, ◌^◌, ◌↔◌, length, take, IsOk, IfOk, IfErr};
ghost use Rattle.gf_field.specs.Element.{AreElements};
ghost use Rattle.gf_field.specs.Polynomial.{IsProductModulo};
ghost use Rattle.gf_field.specs.Quotient.{product as quotient_product};
ghost use Rattle.gf_tower.specs.Tower.{IsTowerList, polynomial_of, tower_polynomial};
ghost use Rattle.gf_tower.specs.Digits.{IsPackedList};
ghost use Rattle.gf_tower.specs.private.DigitSteps.{modulus_of, scaled as scaled_of, times_y as times_y_of};

use gf_field::{Field, Ring, filled, first_outside};
use thiserror::Error;

/// The polynomials in Y over a field of `2^n` elements modulo `Y^m` plus the sum of `c_i * Y^i`. An element packs its
/// m coefficients, the lowest first, n bits each.
#[derive(Drop)]
pub struct Tower<F: Field> {
    base: F,
    coefficients: [u64; 64],
    length: u32,
    low: u64,
    ghost fits: { IsPackedList (F.degree base) length low (take length coefficients) },
}

/// Why coefficients make no tower.
#[derive(Debug, Drop, Error)]
pub enum TowerFault {
    /// There are fewer than 2, or the tower would have more than 64 bits.
    #[error("the number of coefficients does not fit")]
    BadLength,
    /// The first coefficient that is no element of the base.
    #[error("coefficient {place} is no element of the base")]
    BadCoefficient { place: u32 },
}

// The coefficients packed into one number, the lowest first, n bits each.
fn packed(n: u32, coefficients: &[u64]) -> u64
    requires some { 1 ≤ n }
    requires small { n ≤ 32 }
    requires fits { n * length coefficients.now ≤ 64 }
    requires elements { AreElements n coefficients.now }
    ensures { result ≡ polynomial_of n coefficients.now }
{
    let mut low = 0;
    for i in (0..coefficients.len()).rev() {
        low = (low << n) | coefficients[i];
    }
    low
}

impl<F: Field> Tower<F> {
    ghost use Rattle.gf_tower.specs.TowerFault.{IsTowerFault};
    ghost use Rattle.gf_tower.specs.TowerParts.{base_of, coefficients_of, size_of};

    /// The tower over this base. The faults, in this order: `BadLength` where there are fewer than 2 coefficients or the
    /// tower would have more than 64 bits, and `BadCoefficient` at the first that is no element of the base. A refusal
    /// hands the base back.
    pub fn new(base: F, coefficients: &[u64]) -> Result<Tower<F>, (TowerFault, F)>
        ensures accepted { IsOk result ↔ IsTowerList (F.degree base) coefficients.now }
        ensures fault { IfErr result (λ refused. IsTowerFault (F.degree base) coefficients.now refused.0) }
        ensures back { IfErr result (λ refused. refused.1 ≡ base) }
        ensures base { IfOk result (λ tower. base_of tower ≡ base) }
        ensures coefficients { IfOk result (λ tower. coefficients_of tower ≡ coefficients.now) }
        ensures size { IfOk result (λ tower. size_of tower ≡ length coefficients.now) }
    {
        let n = base.k();
        if coefficients.len() < 2 || coefficients.len() > 64 / n as usize {
            return Err((TowerFault::BadLength, base));
        }
        if let Some(place) = first_outside(&base, coefficients) {
            return Err((
                TowerFault::BadCoefficient {
                    place: place as u32,
                },
                base,
            ));
        }
        let low = packed(n, coefficients);
        Ok(Tower {
            base,
            coefficients: filled(coefficients),
            length: coefficients.len() as u32,
            low,
        })
    }

    /// The field below.
    pub fn base(&self) -> &F
        ensures { result.now ≡ base_of self.now }
    {
        &self.base
    }

    /// The coefficients of the tower's polynomial below the leading one, the lowest first.
    pub fn coefficients(&self) -> &[u64]
        ensures { result.now ≡ coefficients_of self.now }
    {
        &self.coefficients[..self.length as usize]
    }

    // a times each digit of v
    fn scaled(&self, a: u64, v: u64) -> u64
        requires first { a < 2 ^ F.degree (base_of self.now) }
        requires second { v < 2 ^ (F.degree (base_of self.now) * size_of self.now) }
        ensures product { result ≡ scaled_of (F.degree (base_of self.now)) (F.product (base_of self.now)) (size_of self.now) a v }
        ensures element { result < 2 ^ (F.degree (base_of self.now) * size_of self.now) }
    {
        let n = self.base.k();
        let mask = u64::MAX >> (64 - n);
        let table = self.base.times(a);
        let mut result = 0;
        for i in (0..self.length).rev() {
            let digit = (v >> (n * i)) & mask;
            result = (result << n) | self.base.by(&table, digit);
        }
        result
    }

    // Y times a
    fn times_y(&self, a: u64) -> u64
        requires { a < 2 ^ (F.degree (base_of self.now) * size_of self.now) }
        ensures product { result ≡ times_y_of (F.degree (base_of self.now)) (F.product (base_of self.now)) (size_of self.now) (modulus_of (F.degree (base_of self.now)) (size_of self.now) self.now.low) a }
        ensures element { result < 2 ^ (F.degree (base_of self.now) * size_of self.now) }
    {
        let n = self.base.k();
        let top = a >> (n * (self.length - 1));
        let shifted = (a << n) & (u64::MAX >> (64 - n * self.length));
        shifted ^ self.scaled(top, self.low)
    }
}

impl<F: Field> Ring for Tower<F> {
    ghost use Rattle.gf_tower.specs.TowerParts.{base_of, coefficients_of, size_of};
    ghost use Rattle.gf_tower.specs.laws.TowerLaws.{IsRing-tower};

    type Times = u64;

    ghost degree = { λ tower. F.degree (base_of tower) * size_of tower };

    ghost product = { λ tower. quotient_product (F.degree (base_of tower)) (size_of tower) (F.product (base_of tower)) (tower_polynomial (F.degree (base_of tower)) (coefficients_of tower)) };

    ghost is_table = { λ tower table a. table ≡ a };

    ghost laws = { λ tower. IsRing-tower (F.degree (base_of tower)) (size_of tower) tower.low (coefficients_of tower) tower.fits (F.product (base_of tower)) (F.laws (base_of tower)) };

    fn k(&self) -> u32 {
        self.base.k() * self.length
    }

    fn one(&self) -> u64 {
        1
    }

    fn add(&self, a: u64, b: u64) -> u64 {
        a ^ b
    }

    /// The remainder of the product of polynomials by the tower's polynomial.
    fn mul(&self, a: u64, b: u64) -> u64
        requires first { a < 2 ^ (F.degree (base_of self.now) * size_of self.now) }
        requires second { b < 2 ^ (F.degree (base_of self.now) * size_of self.now) }
        ensures product { result ≡ quotient_product (F.degree (base_of self.now)) (size_of self.now) (F.product (base_of self.now)) (tower_polynomial (F.degree (base_of self.now)) (coefficients_of self.now)) a b }
        ensures element { result < 2 ^ (F.degree (base_of self.now) * size_of self.now) }
        ensures remainder { IsProductModulo (F.degree (base_of self.now)) (size_of self.now) (F.product (base_of self.now)) (tower_polynomial (F.degree (base_of self.now)) (coefficients_of self.now)) a b result }
    {
        let n = self.base.k();
        let mask = u64::MAX >> (64 - n);
        let mut sum = 0;
        for i in (0..self.length).rev() {
            let digit = (a >> (n * i)) & mask;
            sum = self.times_y(sum) ^ self.scaled(digit, b);
        }
        sum
    }

    fn square(&self, a: u64) -> u64 {
        self.mul(a, a)
    }

    /// The element itself: products by it make a table of the base for each of its coefficients.
    fn times(&self, a: u64) -> u64 {
        a
    }

    fn by(&self, table: &u64, b: u64) -> u64 {
        self.mul(*table, b)
    }
}
