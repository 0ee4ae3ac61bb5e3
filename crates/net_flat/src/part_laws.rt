//! Laws of instances. These functions do nothing: their contracts are proved of the definitions alone.
ghost use Rattle.std.specs.Prelude.{◌≡◌, [], ℕ, Bool, List, None, Some};
ghost use Rattle.net_core.specs.NetList.{number_of};
ghost use Rattle.net_core.specs.Value.{IsConsistent};
ghost use Rattle.net_blif.specs.Statement.{Token};
ghost use Rattle.net_blif.specs.Design.{ModelValue};
ghost use Rattle.net_blif.specs.Top.{actual_in, connections_in, gate_line};
ghost use Rattle.net_blif.specs.declared.item.Item.{Item};
ghost use Rattle.net_flat.specs.Paths.{inner, path_in, top, At};
ghost use Rattle.net_flat.specs.Flat.{net_list, number, Flat};
ghost use Rattle.net_flat.specs.Part.{HasNamedBits, InstanceOfTop, InstancesHaveNoLatch, IsPart, IsPartOf, IsWholeOf};

/// Restricted to one instance of the top, a list of bits that is consistent with the net of the whole is consistent with the
/// net of the instance's model by itself.
pub fn instances_are_consistent()
    ensures { (one : InstanceOfTop) (bits : List Bool) → IsConsistent (net_list one.whole) bits → (part : _) × IsPartOf one bits part × IsConsistent (net_list one.alone) part }
{}

/// A net that the model by itself finds by its name has the bit of the net that this name is in the instance.
pub fn named_nets_keep_their_bits()
    ensures part { (whole alone : Flat) (i : ℕ) (pairs : List Token) (bits part : List Bool) → IsPart whole alone i pairs bits part → HasNamedBits whole alone i pairs bits part }
    ensures whole { (whole : Flat) (n : ℕ) (name : Token) → number_of (net_list whole) name ≡ Some n → number whole (At [] name) ≡ n }
{}

/// A formal that an instance of the top connects is its actual there.
pub fn connected_formals_are_their_actuals()
    ensures { (item : Item) (i : ℕ) (formal actual : Token) → actual_in item formal ≡ Some actual → path_in (inner top i (connections_in item)) formal ≡ At [] actual }
{}

/// A top of instances alone, whose models by themselves have no latch, has none.
pub fn wholes_of_latchless_instances_have_no_latch()
    ensures { (design : List ModelValue) (whole : Flat) → IsWholeOf design whole → gate_line design ≡ None → InstancesHaveNoLatch design → whole.latches ≡ [] }
{}
