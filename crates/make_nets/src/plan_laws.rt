//! Laws of plans. These functions do nothing: their contracts are proved of the definitions alone.
ghost use Rattle.std.specs.Prelude.{Bool, List, Option, ℕ};
ghost use Rattle.make_nets.specs.Plan.{Plan};
ghost use Rattle.make_nets.specs.PlanValue.{ChainAddsBits};
ghost use Rattle.make_nets.specs.Makeable.{IsSoundIfMakeable};

/// The net list of a plan is sound where each outer net is an input, the output of a latch or driven by a gate of the plan,
/// and no two of these, and where names and limits fit.
pub fn made_nets_are_sound()
    ensures { (names : List (List ℕ)) (prefix : List ℕ) (plan : Plan) → IsSoundIfMakeable names prefix plan }
{}

/// The net that a chain drives has the exclusive or of the bits of its list, wherever the bits agree with the gates.
pub fn chains_add_bits()
    ensures { (bits : List Bool) (target : Option ℕ) (list : List ℕ) (plan : Plan) → ChainAddsBits bits target list plan }
{}
