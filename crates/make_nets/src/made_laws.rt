//! Laws of made nets. These functions do nothing: their contracts are proved of the definitions alone.
ghost use Rattle.std.specs.Prelude.{◌≡◌, ◌≤◌, ◌++◌, List, codes, ℕ};
ghost use Rattle.std.specs.List.{repeat};
ghost use Rattle.lists.specs.Lists.{Has};
ghost use Rattle.net_core.specs.LatchValue.{LatchValue};
ghost use Rattle.net_words.specs.declared.word.WordText.{WordText};
ghost use Rattle.make_nets.specs.Makeable.{IsPrefix};
ghost use Rattle.make_nets.specs.Plan.{Plan};
ghost use Rattle.make_nets.specs.BindingOfMade.{BindsIfPlanned};
ghost use Rattle.make_nets.specs.Made.{IsPlainIfPlanned, IsSoundIfPlanned};
ghost use Rattle.make_nets.specs.MakerNames.{AreMakerNames};
ghost use Rattle.make_nets.specs.Prefix.{most_leading, prefix_of};
ghost use Rattle.make_nets.specs.ShortPlan.{FitsIfShort};

/// No name begins with the prefix, and some name begins with each shorter one: it is `w` as often as needed.
pub fn prefixes_are_new()
    ensures fresh { (names : List (List ℕ)) → AreMakerNames names → IsPrefix names (prefix_of names) }
    ensures needed { (names : List (List ℕ)) (m : ℕ) → 1 ≤ m → m ≤ most_leading names → (name : List ℕ) × (rest : List ℕ) × Has names name × (name ≡ repeat m (codes "w") ++ rest) }
{}

/// The net list of a plan over the nets of a signature's words is sound, and its names are plain. Where nothing is fed, the
/// words bind to it, each to its own nets.
pub fn made_nets_bind()
    ensures sound { (words : List WordText) (fed : List (List ℕ)) (latches : List LatchValue) (targets : List ℕ) (plan : Plan) → IsSoundIfPlanned words fed latches targets plan }
    ensures plain { (words : List WordText) (fed : List (List ℕ)) (latches : List LatchValue) (targets : List ℕ) (plan : Plan) → IsPlainIfPlanned words fed latches targets plan }
    ensures binds { (words : List WordText) (latches : List LatchValue) (targets : List ℕ) (plan : Plan) → BindsIfPlanned words latches targets plan }
{}

/// Where such a plan has at most 152,000 gates, of at most two inputs each, the text of its net list has at most 67,108,864 bytes: a
/// net's name has at most 136.
pub fn short_texts_fit()
    ensures { (words : List WordText) (fed : List (List ℕ)) (latches : List LatchValue) (targets : List ℕ) (plan : Plan) → FitsIfShort words fed latches targets plan }
{}
