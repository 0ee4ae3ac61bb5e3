//! Laws of bindings. These functions do nothing: their contracts are proved of the definitions alone.
ghost use Rattle.std.specs.Prelude.{◌≡◌, ◌<◌, ◌↔◌, List, Ok, length, map, ℕ};
ghost use Rattle.lists.specs.Lists.{Has, times};
ghost use Rattle.outcome.specs.Outcome.{Determined};
ghost use Rattle.net_core.specs.NetList.{NetList, nets};
ghost use Rattle.net_core.specs.Sound.{IsSound};
ghost use Rattle.net_words.specs.Bind.{BindingOf};
ghost use Rattle.net_words.specs.Binding.{AreWords, Binding};
ghost use Rattle.net_words.specs.BoundTo.{IsBoundTo};
ghost use Rattle.net_words.specs.Feeds.{AreFeeds};
ghost use Rattle.net_words.specs.OneCycle.{IsFlat, IsOneCycle};
ghost use Rattle.net_words.specs.Variables.{variables, IsRanked};
ghost use Rattle.net_words.specs.declared.feed.FeedText.{FeedText};
ghost use Rattle.net_words.specs.declared.word.WordText.{WordText};

/// At most one binding or fault comes of binding words and feeds to the nets of a net list.
pub fn one_binding_or_fault()
    ensures { (net : NetList) (words : List WordText) (feeds : List FeedText) → Determined (BindingOf net words feeds) }
{}

/// What comes of binding words and feeds to a sound net list is bound to it.
pub fn what_is_bound_stands_on_its_net()
    ensures { (net : NetList) (k : ℕ) (words : List WordText) (feeds : List FeedText) (binding : Binding) → IsSound net → AreWords k words → AreFeeds k (map (λ word. word.role) words) feeds → BindingOf net words feeds (Ok binding) → IsBoundTo net binding }
{}

/// Where words are bound to a net list and nothing is left to unroll, the output word depends on the bits of the other
/// words alone, which are different primary inputs.
pub fn flat_bindings_are_of_one_cycle()
    ensures { (net : NetList) (binding : Binding) → IsBoundTo net binding → IsFlat net binding → IsOneCycle net binding }
{}

/// Where words are bound to a sound net in one cycle, the order of variables has each net once and nothing else.
/// So there are as many variables as nets, and a net has one rank.
pub fn each_net_has_one_rank()
    ensures once { (net : NetList) (binding : Binding) (n : ℕ) → IsSound net → IsOneCycle net binding → n < nets net → times n (variables (nets net) binding.words) ≡ 1 }
    ensures within { (net : NetList) (binding : Binding) (n : ℕ) → IsSound net → IsOneCycle net binding → Has (variables (nets net) binding.words) n → n < nets net }
    ensures long { (net : NetList) (binding : Binding) → IsSound net → IsOneCycle net binding → length (variables (nets net) binding.words) ≡ nets net }
    ensures one { (net : NetList) (binding : Binding) (p q n : ℕ) → IsSound net → IsOneCycle net binding → IsRanked (variables (nets net) binding.words) p n → IsRanked (variables (nets net) binding.words) q n → p ≡ q }
{}

/// Where words are bound to a sound net in one cycle, the ranks of two variables are the same exactly where their nets
/// are.
/// So `net_of` and `rank_of` are inverse of each other at arguments below the number of nets.
pub fn ranks_and_nets_are_one_to_one()
    ensures { (net : NetList) (binding : Binding) (p q n m : ℕ) → IsSound net → IsOneCycle net binding → IsRanked (variables (nets net) binding.words) p n → IsRanked (variables (nets net) binding.words) q m → (p ≡ q) ↔ (n ≡ m) }
{}
