//! Laws of the polynomials of instances. These functions do nothing: their contracts are proved of the definitions alone.
ghost use Rattle.poly_mixed.specs.Polynomial.{Terms};
ghost use Rattle.circuit_model.specs.Circuit.{Circuit};
ghost use Rattle.stage_model.specs.OutputInWords.{IsOutputInWords};
ghost use Rattle.compose_model.specs.Wiring.{AreAllFeeds};
ghost use Rattle.compose_model.specs.declared.feeder.Feeder.{Feeder};
ghost use Rattle.compose_model.specs.WiredTop.{WiredTop};
ghost use Rattle.compose_polys.specs.Walk.{HaveInstancePolys, IsAcyclicWith, IsFeedPoly, IsWalked, IsWhole, TakesAll, Walked, feed_after};

/// Where no instances feed each other in a cycle, the polynomial of what feeds the output word of a top is the polynomial in words
/// of the flat top's output.
pub fn composed_polynomial_is_the_output()
    ensures { (top : WiredTop) (flat : Circuit) (feed : Feeder) (ts : Terms) → IsAcyclicWith top flat feed → IsFeedPoly top feed ts → IsOutputInWords flat ts }
{}

/// Where all instances stand in an order and have got their polynomials in it, each from that of its block in words, the polynomial
/// of what feeds the output word of a top is the polynomial in words of the flat top's output.
pub fn instances_in_order_are_composed()
    ensures instances { (top : WiredTop) (done : Walked) → AreAllFeeds top.hierarchy top.rows → IsWalked top done → TakesAll top done.walk → HaveInstancePolys top done.polys }
    ensures output { (top : WiredTop) (done : Walked) (flat : Circuit) (feed : Feeder) → IsAcyclicWith top flat feed → IsWhole top done → IsOutputInWords flat (feed_after done feed) }
{}
