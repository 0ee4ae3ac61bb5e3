//! Laws of simplified nets. These functions do nothing: their contracts are proved of the definitions alone.
ghost use Rattle.std.specs.Prelude.{◌≡◌, ◌↔◌, ℕ, Bool, List};
ghost use Rattle.net_core.specs.NetList.{NetList};
ghost use Rattle.net_core.specs.Sound.{IsSound};
ghost use Rattle.net_core.specs.Value.{IsConsistent};
ghost use Rattle.net_words.specs.Binding.{BoundNet};
ghost use Rattle.net_simplify.specs.Circuit.{EachHasAnOrder, HaveSameOutputs, IsInOneCycle, IsSimplifiedCircuit};
ghost use Rattle.net_simplify.specs.Simplified.{IsSimplified};

/// A sound net list has one simplified net list at most.
pub fn one_simplified_net()
    ensures { (ends : List ℕ) (net simple other : NetList) → IsSound net → IsSimplified ends net simple → IsSimplified ends net other → simple ≡ other }
{}

/// The simplified net list of a sound one is sound, and a list of bits agrees with it exactly if it agrees with the other.
pub fn simplified_nets_agree()
    ensures sound { (ends : List ℕ) (net simple : NetList) → IsSound net → IsSimplified ends net simple → IsSound simple }
    ensures consistent { (ends : List ℕ) (net simple : NetList) (bits : List Bool) → IsSound net → IsSimplified ends net simple → IsConsistent simple bits ↔ IsConsistent net bits }
{}

/// A circuit with a sound net list has one simplified circuit at most.
pub fn one_simplified_circuit()
    ensures { (circuit simple other : BoundNet) → IsSound circuit.net → IsSimplifiedCircuit circuit simple → IsSimplifiedCircuit circuit other → simple ≡ other }
{}

/// Where the gates of each sound net list have an order, which its levels give, a circuit with a sound net list has a
/// simplified circuit.
pub fn some_simplified_circuit()
    ensures { EachHasAnOrder → (circuit : BoundNet) → IsSound circuit.net → (simple : BoundNet) × IsSimplifiedCircuit circuit simple }
{}

/// The simplified circuit is sound, its words are bound to it in one cycle, and at each input it has the output that the
/// circuit has, and no other.
pub fn simplified_circuits_compute_the_same()
    ensures sound { (circuit simple : BoundNet) → IsSound circuit.net → IsSimplifiedCircuit circuit simple → IsSound simple.net }
    ensures one_cycle { (circuit simple : BoundNet) → IsSound circuit.net → IsInOneCycle circuit → IsSimplifiedCircuit circuit simple → IsInOneCycle simple }
    ensures output { (circuit simple : BoundNet) → IsSound circuit.net → IsSimplifiedCircuit circuit simple → HaveSameOutputs circuit simple }
{}
