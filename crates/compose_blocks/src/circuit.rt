//! The circuit of a block.
ghost use Rattle.std.specs.Prelude.{◌≡◌, ◌≢◌, ℕ, [], Ok, IfErr, IfOk};
ghost use Rattle.std.specs.List.{AllByRecursion};
ghost use Rattle.net_core.specs.Sound.{IsSound};
ghost use Rattle.net_flat.specs.Flat.{Flattens};
ghost use Rattle.net_words.specs.Binding.{AreWords};
ghost use Rattle.net_words.specs.declared.word.Role.TheVariants.{Fed};
ghost use Rattle.compose_blocks.specs.Block.{IsBlockCircuit, IsBlockFault};

use crate::BlockFault;
use crate::block_fault::{bind_refusal, flat_refusal};
use net_blif::Design;
use net_core::Net;
use net_flat::flatten;
use net_words::{Combinational, WordText, bind};
use std::alloc::Global;

// The net of a model, flattened alone, if it has no latch.
fn block_net(
    alloc: Global,
    design: &Design,
    model: u32,
    _words: &[WordText],
) -> Result<Net, BlockFault>
    ensures net { IfOk result (λ net. Flattens design.now model (Ok net) × (net.latches ≡ []) × IsSound net) }
    ensures fault { IfErr result (IsBlockFault design.now model _words.now) }
{
    let net = match flatten(alloc, design, model) {
        Ok(net) => net,
        Err(fault) => return Err(flat_refusal(fault)),
    };
    if net.latches().is_empty() {
        Ok(net)
    } else {
        Err(BlockFault::HasLatch)
    }
}

/// The circuit of a model with these words: its net, flattened alone, to which the words are bound. Each word has k nets for
/// one k from 1 to 64, one is the output word, at most 8 are others, and none is fed. The first of these is refused: a model that is
/// no net; a net with a latch; words that do not bind.
pub fn block_circuit(
    alloc: Global,
    design: &Design,
    model: u32,
    words: &[WordText],
) -> Result<Combinational, BlockFault>
    requires words { (k : ℕ) × AreWords k words.now }
    requires unfed { AllByRecursion (λ word. word.role ≢ Fed) words.now }
    ensures circuit { IfOk result (λ circuit. IsBlockCircuit design.now model words.now circuit) }
    ensures fault { IfErr result (IsBlockFault design.now model words.now) }
{
    let net = match block_net(alloc, design, model, words) {
        Ok(net) => net,
        Err(fault) => return Err(fault),
    };
    let binding = match bind(alloc, words, &[], &net) {
        Ok(binding) => binding,
        Err(fault) => return Err(bind_refusal(fault)),
    };
    match Combinational::new(net, binding) {
        Ok(circuit) => Ok(circuit),
        Err(_) => unreachable!(),
    }
}
