//! Laws of tops of instances. These functions do nothing: their contracts are proved of the definitions alone.
ghost use Rattle.std.specs.Prelude.{ℕ, List};
ghost use Rattle.circuit_model.specs.Circuit.{Circuit};
ghost use Rattle.circuit_model.specs.Out.{IsOut};
ghost use Rattle.circuit_model.specs.AtMostOne.{AtMostOne};
ghost use Rattle.compose_model.specs.Values.{AreInstanceValues};
ghost use Rattle.compose_model.specs.declared.feeder.Feeder.{Feeder};
ghost use Rattle.compose_model.specs.WiredTop.{HasFeedValue, IsBuiltWithoutCycle, IsFlattened, WiredTop, IsFed};

/// Out of the flat top is the value of what feeds its output word, for some values of the instances each of which is the
/// output of the instance's block at the values of its feeds.
pub fn output_is_the_value_of_its_feed()
    ensures { (top : WiredTop) (flat : Circuit) (feed : Feeder) (xs : List ℕ) (e : ℕ) → IsFed top → IsFlattened top flat feed → IsOut flat xs e → HasFeedValue top xs feed e }
{}

/// Where no instances feed each other in a cycle, the instances have at most one list of values.
pub fn instances_have_one_value_each()
    ensures { (top : WiredTop) (xs : List ℕ) → IsBuiltWithoutCycle top → AtMostOne (AreInstanceValues top.k top.product top.hierarchy top.rows xs) }
{}
