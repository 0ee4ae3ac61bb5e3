//! A law of what `make` prints. The function does nothing: its contract is proved of the definitions alone.
ghost use Rattle.std.specs.Prelude.{ℕ, List, Ok};
ghost use Rattle.net_core.specs.NetList.{NetList};
ghost use Rattle.job_words.specs.declared.kind.Kind.{Kind};
ghost use Rattle.job_input.specs.SettingOf.{SettingOf};
ghost use Rattle.job_input.specs.SettingValue.{SettingValue};
ghost use Rattle.answer_makers.specs.Make.{FitsFile, MadeOf};

/// The text of each net list that `make` prints fits a file: it has at most 67,108,864 bytes, whatever the setting, the kind and the
/// names of nets. Of the gates there are at most 152,000, and each has at most two inputs.
pub fn made_texts_fit()
    ensures { (text : List ℕ) (setting : SettingValue) (kind : Kind) (net : NetList) → SettingOf text (Ok setting) → MadeOf setting kind (Ok net) → FitsFile net }
{}
