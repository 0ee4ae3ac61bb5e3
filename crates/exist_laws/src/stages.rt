//! Laws of stages. These functions do nothing: their contracts are proved of the definitions alone.
ghost use Rattle.exist_laws.specs.Pairs.{HaveCutPairs, HaveWordPairs};
ghost use Rattle.exist_laws.specs.Sums.{AreSpecificationsDecided, AreSumsDecided};

/// There are the pairs that the elimination of gates records, and those that the replacement of words records.
pub fn some_recorded_pairs()
    ensures cuts { HaveCutPairs }
    ensures words { HaveWordPairs }
{}

/// All stages of a sum of products are within a bound, or one is the first over it, if each has a polynomial.
pub fn some_first_of_sum()
    ensures { AreSumsDecided }
{}

/// All stages of a specification are within a bound, or one is the first over it.
pub fn some_first_of_specification()
    ensures { AreSpecificationsDecided }
{}
