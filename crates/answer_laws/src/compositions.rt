//! Laws of compositions. These functions do nothing: their contracts are proved of the definitions alone.
ghost use Rattle.answer_laws.specs.Answers.{HaveComposeAnswers};

/// A polynomial or a fault comes of `compose`.
pub fn some_compose_or_fault()
    ensures { HaveComposeAnswers }
{}
