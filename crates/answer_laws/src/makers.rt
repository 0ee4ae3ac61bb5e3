//! Laws of commands that make netlists. These functions do nothing: their contracts are proved of the definitions alone.
ghost use Rattle.answer_laws.specs.Answers.{HaveMakeAnswers, HaveTrialAnswers};

/// A netlist or fault 43 comes of `make`.
pub fn some_make_or_fault()
    ensures { HaveMakeAnswers }
{}

/// The input at which the turned multiplier and the product are told apart, or a fault, comes of `trial`.
pub fn some_trial_or_fault()
    ensures { HaveTrialAnswers }
{}
