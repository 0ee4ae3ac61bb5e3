//! Laws of net lists with the same names. These functions do nothing: their contracts are proved of the definitions alone.
ghost use Rattle.std.specs.Prelude.{ℕ, List};
ghost use Rattle.net_core.specs.NetList.{NetList};
ghost use Rattle.net_core.specs.Sound.{IsSound};
ghost use Rattle.net_words.specs.Binding.{Binding};
ghost use Rattle.net_words.specs.declared.feed.FeedText.{FeedText};
ghost use Rattle.net_words.specs.declared.word.WordText.{WordText};
ghost use Rattle.net_write.specs.Plain.{HasPlainNames};
ghost use Rattle.net_write.specs.SameByName.{IsSameByName};
ghost use Rattle.make_laws.specs.Renumbering.{IsRenumbering};
ghost use Rattle.make_laws.specs.SameJob.{IsBoundBySameNames};

/// Two sound nets, all of whose nets are named, and which are the same by name, are the same but for the numbers of their nets.
pub fn same_names_renumber()
    ensures { (net other : NetList) → IsSound net → IsSound other → HasPlainNames net → HasPlainNames other → IsSameByName net other → (f : ℕ → ℕ) × IsRenumbering f other net }
{}

/// What is bound to one of them is bound to the other, and the outputs of their jobs are the same: so a net that was written
/// and read back has the outputs that it had before.
pub fn same_names_have_the_same_jobs()
    ensures { (net other : NetList) (words : List WordText) (feeds : List FeedText) (binding : Binding) → IsBoundBySameNames net other words feeds binding }
{}
