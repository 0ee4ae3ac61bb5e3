//! Laws of isomorphisms. These functions do nothing: their contracts are proved of the definitions alone.
ghost use Rattle.answer_laws.specs.Answers.{HaveIsoAnswers};

/// The images of an isomorphism or a fault come of `iso`.
pub fn some_iso_or_fault()
    ensures { HaveIsoAnswers }
{}
