//! Laws of certificates that are written. These functions do nothing: their contracts are proved of the definitions alone.
ghost use Rattle.cert_make.specs.laws.ReadBack.{WrittenIsRead, UpgradeKeepsPairs, UpgradeKeepsVerdict};

/// A certificate that was written is read back: its claim, its pairs, and as shared multipliers those of at least two pairs.
pub fn written_certificate_is_read_back()
    ensures { WrittenIsRead }
{}

/// An upgraded text has no fault, and says the claim and the pairs of the text.
pub fn upgrade_keeps_pairs()
    ensures { UpgradeKeepsPairs }
{}

/// An upgraded text has the verdict of the text, and as many terms remain, where both have a verdict.
pub fn upgrade_keeps_verdict()
    ensures { UpgradeKeepsVerdict }
{}
