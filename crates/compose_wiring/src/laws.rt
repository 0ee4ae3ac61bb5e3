//! Laws of wirings. These functions do nothing: their contracts are proved of the definitions alone.
ghost use Rattle.std.specs.Prelude.{◌≡◌, ◌≢◌, List};
ghost use Rattle.compose_model.specs.Hierarchy.{Hierarchy};
ghost use Rattle.compose_model.specs.declared.feeder.Feeder.{Feeder};
ghost use Rattle.compose_wiring.specs.Answer.{AreWired};
ghost use Rattle.compose_wiring.specs.Refusal.{IsWiringFault};
ghost use Rattle.compose_wiring.specs.declared.fault.WiringFault.{WiringFault};
ghost use Rattle.compose_wiring.specs.declared.fault.WiringFault.TheVariants.{OutOfMemory};

/// A top is wired in one way, or has one refusal; out of memory aside.
pub fn wiring_has_one_answer()
    ensures wirings { (h : Hierarchy) (rows more : List (List Feeder)) (output other : Feeder) → AreWired h rows output → AreWired h more other → (rows ≡ more) × (output ≡ other) }
    ensures refusals { (h : Hierarchy) (a b : WiringFault) → IsWiringFault h a → IsWiringFault h b → a ≢ OutOfMemory → b ≢ OutOfMemory → a ≡ b }
    ensures apart { (h : Hierarchy) (rows : List (List Feeder)) (output : Feeder) (fault : WiringFault) → AreWired h rows output → IsWiringFault h fault → fault ≡ OutOfMemory }
{}
