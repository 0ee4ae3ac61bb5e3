//! The law of the lines of faults. This function does nothing: its contract is proved of the definitions alone.
ghost use Rattle.job_words.specs.Fault.{fault_line};
ghost use Rattle.job_words.specs.OneLine.{IsOneLine, KeepsToItsLine};
ghost use Rattle.job_words.specs.declared.fault.Fault.{Fault};

/// The line of a fault is one line, if nothing that it repeats of words and files has a line feed.
pub fn each_fault_is_one_line()
    ensures { (fault : Fault) → KeepsToItsLine fault → IsOneLine (fault_line fault) }
{}
