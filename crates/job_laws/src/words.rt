//! Laws of the words of a command. These functions do nothing: their contracts are proved of the definitions alone.
ghost use Rattle.std.specs.Prelude.{List};
ghost use Rattle.job_words.specs.Operands.{Word};
ghost use Rattle.job_laws.specs.HasOutcome.{HasOutcome};
ghost use Rattle.job_laws.specs.Spelled.{Spelled};

/// All words spell a command, or they spell none.
pub fn some_job_or_fault()
    ensures { (words : List Word) → HasOutcome (Spelled words) }
{}
