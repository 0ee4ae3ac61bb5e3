//! Laws of the definitions.
ghost use Rattle.std.specs.Prelude.{ℕ, List};
ghost use Rattle.outcome.specs.Outcome.{Determined};
ghost use Rattle.net_blif.specs.Design.{ModelValue};
ghost use Rattle.net_flat.specs.Flat.{Flattens};

/// At most one net or fault comes of a model of a design.
pub fn one_net_or_fault()
    ensures { (design : List ModelValue) (model : ℕ) → Determined (Flattens design model) }
{}
