//! Powers in a ring.

ghost use Rattle.std.specs.Prelude.{◌≡◌, ◌<◌, ◌^◌};
ghost use Rattle.gf_field.specs.Power.{power as power_of};
ghost use Rattle.gf_field.specs.Trace.{frobenius as frobenius_of};

use super::rings::Ring;

/// `a` multiplied by itself `e` times; one where `e` is 0, also for `a` = 0.
pub fn power<R: Ring>(ring: &R, a: u64, e: u64) -> u64
    requires { a < 2 ^ R.degree ring.now }
    ensures product { result ≡ power_of (R.product ring.now) a e }
    ensures element { result < 2 ^ R.degree ring.now }
{
    let mut product = ring.one();
    let mut base = a;
    let mut left = e;
    while left > 0 {
        if left % 2 == 1 {
            product = ring.mul(product, base);
        }
        base = ring.square(base);
        left /= 2;
    }
    product
}

/// `a` squared `j` times; `a` is an element of the ring, `j` any number.
pub fn frobenius<R: Ring>(ring: &R, a: u64, j: u32) -> u64
    requires { a < 2 ^ R.degree ring.now }
    ensures squares { result ≡ frobenius_of (R.product ring.now) j a }
    ensures element { result < 2 ^ R.degree ring.now }
{
    let mut square = a;
    for _ in 0..j {
        square = ring.square(square);
    }
    square
}
