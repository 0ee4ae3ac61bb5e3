//! The graph of a net list, in which each net leads to the inputs of its gate.
ghost use Rattle.std.specs.Prelude.{IfOk, IfErr};
ghost use Rattle.graph_core.specs.Arranged.{IsArranged};
ghost use Rattle.net_core.specs.Inside.{IsInside};
ghost use Rattle.net_core.specs.Sound.{HasOneDriverEach};
ghost use Rattle.net_core.specs.Driving.{IsGraphOf, IsLoopFault, roots_of};

use crate::NetMaker;
use crate::drivers::roots;
use graph_core::{CycleFault, Graph, arrange};
use std::alloc::{AllocError, Global};

// The graph of the net list.
fn graph_of(alloc: Global, net: &NetMaker) -> Result<Graph, AllocError>
    requires { HasOneDriverEach net.now }
    ensures graph { IfOk result (λ graph. IsGraphOf net.now graph) }
    ensures inside { IsInside net.now }
{
    let mut graph = Graph::new(alloc, net.nets() as u32)?;
    for gate in net.gates() {
        graph.set_edges(gate.out(), gate.inputs())?;
    }
    Ok(graph)
}

// All nets, each after the inputs of its gate; or the cycle that a walk from the first gate on finds.
pub fn nets_in_order(alloc: Global, net: &NetMaker) -> Result<Vec<u32>, CycleFault>
    requires { HasOneDriverEach net.now }
    ensures order { IfOk result (λ v. (graph : _) × IsGraphOf net.now graph × IsArranged graph (roots_of net.now) v.items) }
    ensures cycle { IfErr result (λ fault. IsLoopFault net.now fault) }
    ensures inside { IsInside net.now }
{
    let graph = graph_of(alloc, net)?;
    let roots = roots(alloc, net)?;
    arrange(alloc, &graph, &roots)
}
