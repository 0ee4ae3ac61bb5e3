//! The line that prints a polynomial.
ghost use Rattle.std.specs.Prelude.{◌≡◌, ◌++◌, codes, IfOk};
ghost use Rattle.poly_mixed.specs.Text.{text, HasNames, HasWordNames};

use poly_mixed::{Labels, Poly, write_poly};
use std::alloc::{AllocError, Global};

/// The output word's name, ` = ` and the polynomial's text.
pub fn polynomial_line(alloc: Global, poly: &Poly, labels: &Labels) -> Result<Vec<u8>, AllocError>
    requires named { HasNames labels.now poly.now.terms }
    requires words_named { HasWordNames labels.now poly.now.terms }
    ensures { IfOk result (λ line. line.items ≡ labels.now.output ++ (codes " = " ++ (text labels.now poly.now.terms ++ codes "\n"))) }
{
    let polynomial = write_poly(alloc, poly, labels)?;
    line_of(alloc, labels.output(), &polynomial)
}

// A name, ` = ` and the text of a polynomial.
fn line_of(alloc: Global, name: &str, polynomial: &[u8]) -> Result<Vec<u8>, AllocError>
    ensures { IfOk result (λ line. line.items ≡ name.now ++ (codes " = " ++ (polynomial.now ++ codes "\n"))) }
{
    let mut line = Vec::from_slice(alloc, name.as_bytes())?;
    line.extend_from_slice(b" = ")?;
    line.extend_from_slice(polynomial)?;
    line.extend_from_slice(b"\n")?;
    Ok(line)
}
