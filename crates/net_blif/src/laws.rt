//! Laws of the definitions.
ghost use Rattle.std.specs.Prelude.{◌≡◌, ◌<◌, ◌^◌, ℕ, List, length};
ghost use Rattle.std.specs.Int.{bit_at};
ghost use Rattle.outcome.specs.Outcome.{Determined};
ghost use Rattle.net_blif.specs.Cover.{CoverValue, bit_value, is_one, table_of};
ghost use Rattle.net_blif.specs.Models.{BlifDesign};

/// At most one outcome fits a text.
pub fn one_design_or_fault()
    ensures { (text : List ℕ) → Determined (BlifDesign text) }
{}

/// The table of a cover bit by bit: below 2^inputs a bit is 1 exactly where the gate is, and no bit stands above.
pub fn table_by_bits()
    ensures bits { (cover : CoverValue) (index : ℕ) → index < 2 ^ length cover.inputs → bit_at (table_of cover) index ≡ bit_value (is_one cover index) }
    ensures no_more { (cover : CoverValue) → table_of cover < 2 ^ (2 ^ length cover.inputs) }
{}
