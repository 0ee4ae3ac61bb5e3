//! Laws for callers. These functions do nothing: their contracts are proved of the definitions alone.
ghost use Rattle.word_subst.specs.Laws.{BasesMakeACircuit, LastCutIsTaken, AllWordsHaveTheOutput, AllWordsLackBits};

/// Words that are bound to a sound net make a well-formed circuit with one basis of the field for each.
pub fn bases_make_a_circuit()
    ensures { BasesMakeACircuit }
{}

/// The polynomial of the last cut is that of the mix of no words: what the elimination of gates gives is what `to_words`
/// takes.
pub fn last_cut_is_taken()
    ensures { LastCutIsTaken }
{}

/// The polynomial of the mix of all words has the output's element at each input, and in it stand words alone.
pub fn all_words_are_the_output()
    ensures values { AllWordsHaveTheOutput }
    ensures words { AllWordsLackBits }
{}
