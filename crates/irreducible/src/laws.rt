//! Laws of matrices, each on a function that does nothing.

ghost use Rattle.irreducible.specs.Span.{HasOnlyRank};

/// Rows have at most one rank; the one that `rank` gives is it.
pub fn only_rank()
    ensures { HasOnlyRank }
{}
