//! Laws of compositions. These functions do nothing: their contracts are proved of the definitions alone.
ghost use Rattle.std.specs.Prelude.{ℕ};
ghost use Rattle.outcome.specs.Outcome.{Determined};
ghost use Rattle.block_compose.specs.Composed.{CanCompose, Comes, Composition};

/// A top has one composition at most: its polynomial in words, or its first refusal.
pub fn composition_is_one()
    ensures { (given : Composition) (bound : ℕ) → CanCompose given → Determined (Comes given bound) }
{}
