//! Laws of commands over certificates. These functions do nothing: their contracts are proved of the definitions alone.
ghost use Rattle.answer_laws.specs.Answers.{HaveCertifyAnswers, HaveUpgradeAnswers, HaveVerifyAnswers};

/// A certificate or a fault comes of `certify`.
pub fn some_certify_or_fault()
    ensures { HaveCertifyAnswers }
{}

/// A verdict or a fault comes of `verify`.
pub fn some_verify_or_fault()
    ensures { HaveVerifyAnswers }
{}

/// A certificate in the newest version or a fault comes of `upgrade`.
pub fn some_upgrade_or_fault()
    ensures { HaveUpgradeAnswers }
{}
