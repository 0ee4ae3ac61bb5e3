//! Laws of commands over specifications. These functions do nothing: their contracts are proved of the definitions alone.
ghost use Rattle.answer_laws.specs.Answers.{HaveCheckAnswers};

/// That the netlist computes its specification, the input at which it does not, or a fault comes of `check`.
pub fn some_check_or_fault()
    ensures { HaveCheckAnswers }
{}
