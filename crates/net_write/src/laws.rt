//! Laws of the definitions.
ghost use Rattle.std.specs.Prelude.{List, Err, Ok};
ghost use Rattle.net_core.specs.NetList.{NetList};
ghost use Rattle.net_core.specs.Sound.{IsSound};
ghost use Rattle.net_blif.specs.Design.{ModelValue};
ghost use Rattle.net_blif.specs.Models.{BlifDesign};
ghost use Rattle.net_blif.specs.declared.fault.BlifFault.{BlifFault};
ghost use Rattle.net_flat.specs.Flat.{Flattens};
ghost use Rattle.net_flat.specs.declared.flat_fault.FlatFault.{FlatFault};
ghost use Rattle.net_write.specs.Plain.{HasPlainNames};
ghost use Rattle.net_write.specs.ReadBack.{IsReadAs, IsReadBackAs};
ghost use Rattle.net_write.specs.SameByName.{IsSameByName};
ghost use Rattle.net_write.specs.Written.{written};

/// The text of a sound net with plain names gives a design and no fault, and model 0 of this design gives a net and no
/// fault. It has the same inputs, outputs, latches and gates, by name and in the same order, and its names are plain;
/// its nets may have other numbers.
pub fn written_net_is_read_back()
    ensures read { (net : NetList) → IsSound net → HasPlainNames net → (design : List ModelValue) × IsReadAs net design }
    ensures no_fault { (net : NetList) (fault : BlifFault) → IsSound net → HasPlainNames net → BlifDesign (written net) (Err fault) → ⊥ }
    ensures flat { (net : NetList) (design : List ModelValue) → IsSound net → HasPlainNames net → IsReadAs net design → (other : NetList) × Flattens design 0 (Ok other) }
    ensures no_flat_fault { (net : NetList) (design : List ModelValue) (fault : FlatFault) → IsSound net → HasPlainNames net → IsReadAs net design → Flattens design 0 (Err fault) → ⊥ }
    ensures same { (net other : NetList) → IsSound net → HasPlainNames net → IsReadBackAs net other → IsSameByName net other × HasPlainNames other }
{}
