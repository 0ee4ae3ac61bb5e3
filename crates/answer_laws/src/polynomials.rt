//! Laws of the commands that print polynomials or compare two netlists. These functions do nothing: their contracts are proved of the definitions alone.
ghost use Rattle.answer_laws.specs.Answers.{HaveAbstractAnswers, HaveBitsAnswers, HaveSameAnswers};

/// Over the setting of a signature's text there is a polynomial or a fault of `bits`, whatever the shelf holds.
pub fn some_bits_or_fault()
    ensures { HaveBitsAnswers }
{}

/// So there is of `abstract`.
pub fn some_abstract_or_fault()
    ensures { HaveAbstractAnswers }
{}

/// So there is a comparison of `same`, or a fault.
pub fn some_same_or_fault()
    ensures { HaveSameAnswers }
{}
