//! The trace of a field.

ghost use Rattle.std.specs.Prelude.{◌≡◌, ◌<◌, ◌≤◌, ◌^◌};
ghost use Rattle.gf_field.specs.Trace.{trace as trace_of};

use super::fields::Field;

/// The sum of `a` squared 0 to k - 1 times, which is 0 or 1 (Lidl and Niederreiter, Finite Fields, chapter 2).
pub fn trace<F: Field>(field: &F, a: u64) -> u64
    requires { a < 2 ^ F.degree field.now }
    ensures sum { result ≡ trace_of (F.product field.now) (F.degree field.now) a }
    ensures bit { result ≤ 1 }
{
    let mut sum = 0;
    let mut square = a;
    for _ in 0..field.k() {
        sum = field.add(sum, square);
        square = field.square(square);
    }
    sum
}
