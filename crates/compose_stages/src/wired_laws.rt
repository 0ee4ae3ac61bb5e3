//! Laws of wired tops. These functions do nothing: their contracts are proved of the definitions alone.
ghost use Rattle.std.specs.Prelude.{ℕ};
ghost use Rattle.poly_mixed.specs.declared.stage.Stage.{Stage};
ghost use Rattle.compose_stages.specs.TopStages.{AreTopInstancesWithin, HasPolyByLevel, IsFirstByLevel, IsFirstInstanceStage};
ghost use Rattle.compose_model.specs.WiredTop.{IsBuilt, WiredTop};

/// Where each instance has the polynomial in words of its block and a row of what feeds it, a wired top is refused at the first stage
/// over the bound of the stages of all instances, and where it has a polynomial, no stage is over it.
pub fn wired_tops_have_these_stages()
    ensures over { (top : WiredTop) (bound n : ℕ) (name : Stage) → IsBuilt top → IsFirstByLevel top bound name n → IsFirstInstanceStage top bound name n }
    ensures within { (top : WiredTop) (bound : ℕ) → IsBuilt top → HasPolyByLevel top bound → AreTopInstancesWithin top bound }
{}
