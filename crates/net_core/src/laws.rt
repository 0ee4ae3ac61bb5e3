//! Laws of net lists. These functions do nothing: their contracts are proved of the definitions alone.
ghost use Rattle.std.specs.Prelude.{◌≡◌, ◌⊎◌, Bool, Err, IsSome, List, length, ℕ};
ghost use Rattle.net_core.specs.NetList.{NetList, nets};
ghost use Rattle.net_core.specs.Inside.{IsInside};
ghost use Rattle.net_core.specs.Sound.{IsSound, IsCycle, HasOneDriverEach};
ghost use Rattle.net_core.specs.Level.{Levels, level_at, AreLevels};
ghost use Rattle.net_core.specs.Levelled.{AllHaveLevels};
ghost use Rattle.net_core.specs.Value.{IsConsistent, HasSourceBits};
ghost use Rattle.net_core.specs.Order.{IsLevelOrder};
ghost use Rattle.net_core.specs.Loop.{HasLevel, IsLoop};
ghost use Rattle.net_core.specs.Finish.{Finishes};
ghost use Rattle.net_core.specs.declared.fault.NetFault.{NetFault};

/// The list that `Loop` names is a cycle: each net is driven by a gate that has the next among its inputs,
/// and the last's gate has the first.
pub fn loop_is_a_cycle()
    ensures { (net : NetList) (loop : List ℕ) → IsLoop net loop → IsCycle net loop }
{}

/// A net list that stands on existing nets, with one driver for each net, has one such list at most.
pub fn loop_is_the_only_one()
    ensures { (net : NetList) (loop other : List ℕ) → IsInside net → HasOneDriverEach net → IsLoop net loop → IsLoop net other → loop ≡ other }
{}

/// Of a sound net list `finish` gives no fault but out of memory; of one that stands on existing nets it gives one
/// fault at most: two that fit are equal, or one is out of memory.
pub fn finish_accepts_the_sound_nets()
    ensures sound { (net : NetList) (fault : NetFault) → IsSound net → Finishes net (Err fault) → fault ≡ NetFault.OutOfMemory }
    ensures one_fault { (net : NetList) (fault other : NetFault) → IsInside net → Finishes net (Err fault) → Finishes net (Err other) → (fault ≡ NetFault.OutOfMemory) ⊎ ((other ≡ NetFault.OutOfMemory) ⊎ (fault ≡ other)) }
{}

/// A net list whose nets have one driver each has one list of levels at most, also where gates drive each other
/// in a cycle.
pub fn levels_are_the_only_ones()
    ensures { (net : NetList) (levels other : Levels) → HasOneDriverEach net → AreLevels net levels → AreLevels net other → levels ≡ other }
{}

/// Where each net has one driver, the nets that have a level in a list of levels are those to which levels lead: the
/// sources, and the outputs of gates all of whose inputs have one.
pub fn levels_are_where_nets_have_them()
    ensures known { (net : NetList) (levels : Levels) (n : ℕ) → HasOneDriverEach net → AreLevels net levels → HasLevel net n → IsSome (level_at levels n) }
    ensures only { (net : NetList) (levels : Levels) (n : ℕ) → HasOneDriverEach net → AreLevels net levels → IsSome (level_at levels n) → HasLevel net n }
{}

/// A net list whose nets have one driver each has one order of its gates by level and position at most.
pub fn order_is_the_only_one()
    ensures { (net : NetList) (order other : List ℕ) → HasOneDriverEach net → IsLevelOrder net order → IsLevelOrder net other → order ≡ other }
{}

/// For each choice of bits for its primary inputs and the outputs of its latches a sound net list has exactly one
/// consistent list of bits.
pub fn sound_net_has_one_valuation()
    ensures some { (net : NetList) (start : List Bool) → IsSound net → length start ≡ nets net → (bits : List Bool) × IsConsistent net bits × HasSourceBits net start bits }
    ensures only { (net : NetList) (start bits other : List Bool) → IsSound net → length start ≡ nets net → IsConsistent net bits → IsConsistent net other → HasSourceBits net start bits → HasSourceBits net start other → bits ≡ other }
{}

/// A sound net list has levels, and each net has one.
pub fn sound_net_has_levels()
    ensures { (net : NetList) → IsSound net → (levels : Levels) × AllHaveLevels net levels }
{}
