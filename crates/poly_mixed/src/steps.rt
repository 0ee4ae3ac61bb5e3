//! Recorders of the steps that an engine takes, each a generator and its multiplier.
ghost use Rattle.std.specs.Prelude.{◌≡◌, List, [], ◌∷◌, Option, None, IsOk, IsFalse, OnOk};
ghost use Rattle.poly_mixed.specs.Steps.{Step, Tells};

use crate::Poly;
use std::alloc::AllocError;

/// What is replaced: a net, by its number, or the bit at a place of an input, state or fed word.
#[derive(Clone, Copy, PartialEq, Eq)]
pub enum Generator {
    Net(u32),
    Bit { word: u32, place: u32 },
}

/// A recorder of steps.
pub trait Steps {
    /// The steps that were recorded, in their order, where the recorder tells them.
    ghost steps: { Self → Option (List Step) };

    /// Whether the recorder tells its steps. One that does not needs no multipliers: who would hand it a step may leave it out.
    fn tells(&self) -> bool
        ensures { IsFalse result → steps self.now ≡ None };

    /// Records a step. After running out of memory the recorder is not used again.
    fn step(&mut self, generator: Generator, multiplier: &Poly) -> Result<(), AllocError>
        ensures { OnOk result (Tells (steps self.old) (steps self.new) ((generator, multiplier.now.terms) ∷ [])) };
}

/// Records nothing, tells nothing and takes no memory.
#[derive(Clone, Copy)]
pub struct NoSteps;

impl Steps for NoSteps {
    ghost steps = { λ _. None };

    fn tells(&self) -> bool
        ensures { IsFalse result }
    {
        false
    }

    fn step(&mut self, _generator: Generator, _multiplier: &Poly) -> Result<(), AllocError>
        ensures recorded { OnOk result (Tells None None ((_generator, _multiplier.now.terms) ∷ [])) }
        ensures ok { IsOk result }
    {
        Ok(())
    }
}
