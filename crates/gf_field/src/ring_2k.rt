//! The rings of polynomials over 0 and 1 modulo one of degree 1 to 64.

ghost use Rattle.std.specs.Prelude.{◌≡◌, ◌<◌, ◌^◌, ◌%◌, ◌↔◌, IsOk, IfOk, length};
ghost use Rattle.gf_field.specs.Bit.{bit_mul};
ghost use Rattle.gf_field.specs.Polynomial.{IsProductModulo};
ghost use Rattle.gf_field.specs.Modulus.{IsModulus, HasModulusDegree};
ghost use Rattle.gf_field.specs.Quotient.{product as quotient_product};
ghost use Rattle.gf_field.specs.Table16.{entries_of};
ghost use Rattle.gf_field.specs.private.ShiftAndAdd.{AreParts, times_power};

use super::rings::Ring;
use super::table_16::Table16;
use thiserror::Error;

/// The polynomials over 0 and 1 modulo one of degree 1 to 64: bit i of an element is the coefficient of `x^i`.
#[derive(Drop)]
pub struct Ring2k {
    modulus: u128,
    degree: u32,
    // the multiples of what is left of the modulus without its leading term
    reductions: Table16,
    ghost fits: { IsModulus degree modulus },
    ghost reduces: { AreParts degree modulus (modulus % 2 ^ degree) (entries_of reductions) },
    ghost whole: { length (entries_of reductions) ≡ 16 },
}

/// The modulus has not degree 1 to 64. The number 0 has no degree.
#[derive(Debug, Drop, Error)]
#[error("the degree of the modulus is not 1 to 64")]
pub struct BadDegree;

impl Ring2k {
    ghost use Rattle.gf_field.specs.Ring2k.{modulus_of, degree_of};

    /// The ring of this modulus, whose bit i is the coefficient of `x^i`. `BadDegree` where its degree is not 1 to 64.
    pub fn new(modulus: u128) -> Result<Ring2k, BadDegree>
        ensures accepted { IsOk result ↔ HasModulusDegree modulus }
        ensures degree { IfOk result (λ ring. IsModulus (degree_of ring) modulus) }
        ensures modulus { IfOk result (λ ring. modulus_of ring ≡ modulus) }
    {
        if modulus < 2 {
            return Err(BadDegree);
        }
        let degree = modulus.ilog2();
        if degree > 64 {
            return Err(BadDegree);
        }
        let low = (modulus & (u128::MAX >> (128 - degree))) as u64;
        Ok(Ring2k {
            modulus,
            degree,
            reductions: Table16::new(degree, modulus, low),
        })
    }

    /// The modulus that the ring was made of.
    pub fn modulus(&self) -> u128
        ensures { result ≡ modulus_of self.now }
    {
        self.modulus
    }

    // x^4 times a
    fn times_x4(&self, a: u64) -> u64
        requires { a < 2 ^ degree_of self.now }
        ensures product { result ≡ times_power (degree_of self.now) (modulus_of self.now) 4 a }
        ensures element { result < 2 ^ degree_of self.now }
    {
        let spare = 64 - self.degree;
        let left = ((a << spare) >> 60) as usize;
        ((a << 4) & (u64::MAX >> spare)) ^ self.reductions.multiples()[left]
    }
}

impl Ring for Ring2k {
    ghost use Rattle.gf_field.specs.Ring2k.{modulus_of, degree_of};
    ghost use Rattle.gf_field.specs.laws.ModulusLaws.{IsRing-from_modulus};
    ghost use Rattle.gf_field.specs.Table16.{AreMultiples, entries_of};

    type Times = Table16;

    ghost degree = { λ ring. degree_of ring };

    ghost product = { λ ring. quotient_product 1 (degree_of ring) bit_mul (modulus_of ring) };

    ghost is_table = { λ ring table a. AreMultiples (degree_of ring) (modulus_of ring) a (entries_of table) };

    ghost laws = { λ ring. IsRing-from_modulus (degree_of ring) (modulus_of ring) ring.fits };

    fn k(&self) -> u32 {
        self.degree
    }

    fn one(&self) -> u64 {
        1
    }

    fn add(&self, a: u64, b: u64) -> u64 {
        a ^ b
    }

    /// The remainder of the product by the modulus.
    fn mul(&self, a: u64, b: u64) -> u64
        requires first { a < 2 ^ degree_of self.now }
        requires second { b < 2 ^ degree_of self.now }
        ensures product { result ≡ quotient_product 1 (degree_of self.now) bit_mul (modulus_of self.now) a b }
        ensures element { result < 2 ^ degree_of self.now }
        ensures remainder { IsProductModulo 1 (degree_of self.now) bit_mul (modulus_of self.now) a b result }
    {
        self.by(&self.times(a), b)
    }

    fn square(&self, a: u64) -> u64 {
        self.mul(a, a)
    }

    /// The sixteen multiples of `a`.
    fn times(&self, a: u64) -> Table16 {
        Table16::new(self.degree, self.modulus, a)
    }

    fn by(&self, table: &Table16, b: u64) -> u64 {
        let multiples = table.multiples();
        let mut sum = 0;
        for i in (0..(self.degree + 3) / 4).rev() {
            let four = ((b >> (4 * i)) & 15) as usize;
            sum = self.times_x4(sum) ^ multiples[four];
        }
        sum
    }
}
