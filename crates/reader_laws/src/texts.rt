//! Laws of signatures and certificates. These functions do nothing: their contracts are proved of the definitions alone.
ghost use Rattle.std.specs.Prelude.{ℕ, List, Result};
ghost use Rattle.net_signature.specs.Signature.{Sig, SignatureValue};
ghost use Rattle.net_signature.specs.declared.fault.SigFault.{SigFault};
ghost use Rattle.reader_laws.specs.Judged.{HaveCertificates, HaveVerdicts};

/// Of each text there is a signature or a fault.
pub fn some_signature_or_fault()
    ensures { (text : List ℕ) → (outcome : Result SignatureValue SigFault) × Sig text outcome }
{}

/// Of each text there is a certificate or a fault, where the labels are right.
pub fn some_certificate_or_fault()
    ensures { HaveCertificates }
{}

/// Of each text there is a verdict or a fault, over a field, where each word has a basis and the labels are right.
pub fn some_verdict_or_fault()
    ensures { HaveVerdicts }
{}
