//! Laws of the commands over values and tables. These functions do nothing: their contracts are proved of the definitions alone.
ghost use Rattle.answer_laws.specs.Answers.{HaveEvalAnswers, HaveLiftAnswers, HaveTableAnswers};

/// Over the setting of a signature's text there is an element or a fault of `eval`, whatever the shelf holds.
pub fn some_eval_or_fault()
    ensures { HaveEvalAnswers }
{}

/// So there is a table of `table`, or a fault.
pub fn some_table_or_fault()
    ensures { HaveTableAnswers }
{}

/// So there is a polynomial of `lift`, or a fault.
pub fn some_lift_or_fault()
    ensures { HaveLiftAnswers }
{}
