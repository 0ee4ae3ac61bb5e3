//! The kinds of netlists that are made.
ghost use Rattle.std.specs.Prelude.{◌≡◌};
ghost use Rattle.job_words.specs.Kind.{kind_name as name_of};

/// A kind of netlists that are made.
#[derive(Clone, Copy)]
pub enum Kind {
    /// Multipliers of all products of bits and their sums, by Mastrovito.
    Mastrovito,
    /// Multipliers that reduce step by step, by Montgomery.
    Montgomery,
    /// Multipliers in a tower, of multipliers in its base.
    Composite,
    /// Multipliers in normal bases, a bit of the product a cycle.
    Normal,
    /// Adders.
    Adder,
    /// Squarers.
    Squarer,
    /// Multipliers that are fed some bits of a word a cycle.
    Digit,
}

/// What a kind is called.
pub(crate) fn kind_name(kind: Kind) -> &'static str
    ensures { result.now ≡ name_of kind }
{
    match kind {
        Kind::Mastrovito => "mastrovito",
        Kind::Montgomery => "montgomery",
        Kind::Composite => "composite",
        Kind::Normal => "normal",
        Kind::Adder => "adder",
        Kind::Squarer => "squarer",
        Kind::Digit => "digit",
    }
}
