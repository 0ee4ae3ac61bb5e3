//! Laws of plans. These functions do nothing: their contracts are proved of the definitions alone.
ghost use Rattle.std.specs.Prelude.{List};
ghost use Rattle.outcome.specs.Outcome.{Determined};
ghost use Rattle.net_signature.specs.Signature.{SignatureValue};
ghost use Rattle.net_blif.specs.Design.{ModelValue};
ghost use Rattle.compose_blocks.specs.Plan.{UsesOf};

/// At most one list of blocks with their circuits, or one refusal, comes of a top.
pub fn one_plan_or_refusal()
    ensures { (design : List ModelValue) (signature : SignatureValue) → Determined (UsesOf design signature) }
{}
