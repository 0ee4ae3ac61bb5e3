//! Laws of jobs that multiply. These functions do nothing: their contracts are proved of the definitions alone.
ghost use Rattle.std.specs.Prelude.{ℕ};
ghost use Rattle.circuit_model.specs.Circuit.{Circuit};
ghost use Rattle.make_laws.specs.DigitNets.{DigitNets, HoldFedSums, MultipliesFed};
ghost use Rattle.make_laws.specs.NormalNets.{MultipliesTurned, NormalNets};

/// A job whose latches turn two state words in a normal basis, and take the last coordinate of their product into the
/// output word in each cycle, has the product after k cycles.
pub fn turning_nets_multiply()
    ensures { (circuit : Circuit) (gamma : ℕ) (coordinates : ℕ → ℕ) (nets : NormalNets) → MultipliesTurned circuit gamma coordinates nets }
{}

/// A job that is fed one word digit by digit, the highest digit first, and whose latches take x^D times what they hold plus
/// the digit times the other word, has the product after k / D cycles.
pub fn fed_nets_multiply()
    ensures { (circuit : Circuit) (x width : ℕ) (nets : DigitNets) → MultipliesFed circuit x width nets }
{}

/// After t cycles the latches of the product of such a job hold the sum of the digits that were fed so far, the t highest,
/// times the other word.
pub fn fed_nets_hold_the_sums()
    ensures { (circuit : Circuit) (x width : ℕ) (nets : DigitNets) → HoldFedSums circuit x width nets }
{}
