//! What holds of the texts of tables. The function does nothing: its contract is proved of the definitions alone.
ghost use Rattle.std.specs.Prelude.{◌≤◌, length, ℕ, List, Ok};
ghost use Rattle.gf_field.specs.Element.{AreElements};
ghost use Rattle.lift_table.specs.TableText.{TableOutcome, table_text};

/// A table that is written is read back as itself.
pub fn written_tables_are_read_back()
    ensures { (k : ℕ) (table : List ℕ) → k ≤ 64 → AreElements k table → TableOutcome k (length table) (table_text table) (Ok table) }
{}
