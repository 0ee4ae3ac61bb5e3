//! Tables of sixteen multiples.

ghost use Rattle.std.specs.Prelude.{◌≡◌, ◌<◌, ◌^◌, length};
ghost use Rattle.gf_field.specs.Modulus.{IsModulus};
ghost use Rattle.gf_field.specs.private.ShiftAndAdd.{AreParts, times_x as times_x_of};

/// The products of an element of a `Ring2k` with the sixteen polynomials of degree below 4.
#[derive(Drop)]
pub struct Table16 {
    multiples: [u64; 16],
}

impl Table16 {
    ghost use Rattle.gf_field.specs.Table16.{entries_of};

    // the table of the element `a` modulo a polynomial of this degree
    pub(crate) fn new(degree: u32, modulus: u128, a: u64) -> Table16
        requires modulus { IsModulus degree modulus }
        requires element { a < 2 ^ degree }
        ensures multiples { AreParts degree modulus a (entries_of result) }
        ensures whole { length (entries_of result) ≡ 16 }
    {
        let mut multiples = [0; 16];
        multiples[1] = a;
        for n in 1..8 {
            let even = times_x(degree, modulus, multiples[n]);
            multiples[2 * n] = even;
            multiples[2 * n + 1] = even ^ a;
        }
        Table16 { multiples }
    }

    /// The entries: entry n is the remainder, by the modulus of the ring, of the table's element times the polynomial with
    /// number n.
    pub fn multiples(&self) -> &[u64; 16]
        ensures { result.now ≡ entries_of self.now }
    {
        &self.multiples
    }
}

// x times `a` modulo a polynomial of this degree
fn times_x(degree: u32, modulus: u128, a: u64) -> u64
    requires modulus { IsModulus degree modulus }
    requires element { a < 2 ^ degree }
    ensures product { result ≡ times_x_of degree modulus a }
    ensures element { result < 2 ^ degree }
{
    let doubled = a << 1;
    if (a >> (degree - 1)) & 1 == 1 {
        doubled ^ (modulus & 0xffff_ffff_ffff_ffff) as u64
    } else {
        doubled
    }
}
