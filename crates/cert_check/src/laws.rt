//! Laws of certificates. These functions do nothing: their contracts are proved of the definitions alone.
ghost use Rattle.std.specs.Prelude.{ℕ, List};
ghost use Rattle.outcome.specs.Outcome.{Determined};
ghost use Rattle.gf_basis.specs.declared.bases.Basis.{Basis};
ghost use Rattle.net_core.specs.NetList.{NetList};
ghost use Rattle.net_words.specs.Binding.{BoundNet};
ghost use Rattle.poly_mixed.specs.Labels.{Labelling};
ghost use Rattle.cert_check.specs.Certificate.{CertificateOf};
ghost use Rattle.cert_check.specs.Output.{ProvesOutput};
ghost use Rattle.cert_check.specs.Verdict.{OneVerdict};

use gf_field::Field;

/// Whatever the text of a certificate is: where the verdict on it is `valid`, its claim is reduced, in the circuit's words
/// alone, and has the circuit's output as its value at every input. The proof speaks of the bits of a run, at which each
/// generator is 0.
pub fn valid_claims_are_outputs()
    ensures { ProvesOutput }
{}

/// A text says one certificate or has one fault.
pub fn one_certificate_or_fault()
    ensures { (k : ℕ) (net : NetList) (labels : Labelling) (bytes : List ℕ) → Determined (CertificateOf k net labels bytes) }
{}

/// One verdict or one fault comes of a text.
pub fn one_verdict_or_fault<F: Field>(_field: &F)
    ensures { (netlist : BoundNet) (bases : List Basis) → OneVerdict (F.degree _field.now) (F.product _field.now) netlist bases }
{}
