//! Laws of polynomials: functions that do nothing, whose contracts are the laws.
ghost use Rattle.poly_mixed.specs.Order.{IsTextOrder};
ghost use Rattle.std.specs.Prelude.{ℕ, List};
ghost use Rattle.outcome.specs.Outcome.{Determined};
ghost use Rattle.poly_mixed.specs.Labels.{Labelling};
ghost use Rattle.poly_mixed.specs.TextOutcome.{TextOutcome};
ghost use Rattle.poly_mixed.specs.laws.TextLaw.{ReadsBack, OneText};
ghost use Rattle.poly_mixed.specs.laws.Uniqueness.{Unique, UniqueInBits, OneSize};

use gf_field::Field;

/// A function of bits has at most one polynomial in bits.
pub fn unique_in_bits<F: Field>(_field: &F)
    ensures { UniqueInBits (F.degree _field.now) (F.product _field.now) }
{}

/// A function of words and bits has at most one polynomial.
pub fn unique<F: Field>(_field: &F)
    ensures { Unique (F.degree _field.now) (F.product _field.now) }
{}

/// A function of words and bits has at most one size.
pub fn one_size<F: Field>(_field: &F)
    ensures { OneSize (F.degree _field.now) (F.product _field.now) }
{}

/// The order of terms in a text is falling lexicographic order of the exponents of all variables.
pub fn text_order()
    ensures { IsTextOrder }
{}

/// A text is one polynomial or has one fault.
pub fn one_poly_or_fault()
    ensures { (l : Labelling) (k : ℕ) (bytes : List ℕ) → Determined (TextOutcome l k bytes) }
{}

/// The text of a polynomial is read back as the polynomial.
pub fn text_reads_back()
    ensures { ReadsBack }
{}

/// Equal texts with the same labels are of equal polynomials.
pub fn one_text()
    ensures { OneText }
{}
