//! The polynomial of a list of terms.
ghost use Rattle.std.specs.Prelude.{◌≡◌, IfOk};
ghost use Rattle.poly_mixed.specs.Polynomial.{IsMap};

use poly_mixed::{Mono, Poly, Term};
use std::alloc::{AllocError, Global};

/// The polynomial of these terms, which stand strictly in the order of a text, with rising ranks and no coefficient 0.
pub fn poly_of(alloc: Global, terms: &[Term]) -> Result<Poly, AllocError>
    requires { IsMap terms.now }
    ensures { IfOk result (λ poly. poly.terms ≡ terms.now) }
{
    let mut poly = Poly::zero(alloc);
    for term in terms {
        let mono = term.mono();
        let copied = Mono::new(alloc, mono.bits(), mono.exponents())?;
        poly.add_term(copied, term.coefficient())?;
    }
    Ok(poly)
}
