//! The powers of x.
ghost use Rattle.std.specs.Prelude.{◌≡◌, ◌==◌, ◌<◌, ◌^◌};
ghost use Rattle.std.specs.Int.{bit_at};
ghost use Rattle.gf_field.specs.Power.{power};
ghost use Rattle.mult_digit.specs.private.Powers.{ArePowers};

use gf_field::Ring;

/// The powers 0 to 127 of `x`.
pub(crate) fn powers_of<R: Ring>(ring: &R, x: u64) -> [u64; 128]
    requires { x < 2 ^ R.degree ring.now }
    ensures { ArePowers (R.product ring.now) x result }
{
    let mut powers = [0; 128];
    let mut last = ring.one();
    for i in 0..128 {
        powers[i] = last;
        last = ring.mul(x, last);
    }
    powers
}

/// Whether bit l of a power of x is 1.
pub(crate) fn has_bit<R: Ring>(_ring: &R, _x: u64, powers: &[u64; 128], i: u32, l: u32) -> bool
    requires powers { ArePowers (R.product _ring.now) _x powers.now }
    requires power { i < 128 }
    requires place { l < 64 }
    ensures { result ≡ (bit_at (power (R.product _ring.now) _x i) l == 1) }
{
    (powers[i as usize] >> l) % 2 == 1
}
