//! These functions do nothing: their contracts are proved of the definitions alone.
ghost use Rattle.cert_laws.specs.Accepted.{IsAccepted};
ghost use Rattle.cert_laws.specs.Named.{IsNamed};
ghost use Rattle.cert_laws.specs.OneCertificate.{IsOnlyCertificate};

/// A circuit has one certificate.
pub fn one_certificate_of_a_circuit()
    ensures { IsOnlyCertificate }
{}

/// The labels of a circuit name all variables of its certificate, so that it can be written, and its net has the generators.
pub fn certificate_is_named()
    ensures { IsNamed }
{}

/// Where no stage of a circuit has more than n terms, the text of its certificate is valid under each bound of at least 4n
/// terms.
pub fn certificate_is_accepted()
    ensures { IsAccepted }
{}
