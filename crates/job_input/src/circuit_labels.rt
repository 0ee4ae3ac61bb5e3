//! The labels with which the polynomials of a certificate are printed and read.
ghost use Rattle.std.specs.Prelude.{◌≡◌, ◌++◌, ◌∷◌, [], cond, length, IfOk, OnOk};
ghost use Rattle.net_core.specs.NetList.{nets as nets_of};
ghost use Rattle.net_core.specs.Sound.{IsSound};
ghost use Rattle.net_words.specs.Binding.{AreWords};
ghost use Rattle.net_words.specs.OneCycle.{IsOneCycle};
ghost use Rattle.net_words.specs.Variables.{bits as bits_of, others};
ghost use Rattle.net_signature.specs.WordNames.{HaveNames};
ghost use Rattle.poly_mixed.specs.Labels.{Differs};
ghost use Rattle.job_input.specs.Labelling.{circuit_labels, with_nets};
ghost use Rattle.job_input.specs.Setting.{HaveRoles};

use crate::labels::labels_for;
use net_words::{Combinational, WordText};
use poly_mixed::Labels;
use std::alloc::{AllocError, Global};

/// The labels of polynomials in all variables of a circuit: the words of a signature, each of k bits, their bits, and the
/// other nets of the circuit by number. The circuit has the signature's words. What the circuit keeps is said with them: its
/// net is sound, and its words are bound to the net.
pub fn circuit_labels_for(
    alloc: Global,
    words: &[WordText],
    k: u32,
    circuit: &Combinational,
) -> Result<Labels, AllocError>
    requires words { AreWords k words.now }
    requires names { HaveNames words.now }
    requires bits { circuit.now.binding.k ≡ k }
    requires roles { HaveRoles words.now circuit.now.binding.words }
    ensures labels { IfOk result (λ labels. labels ≡ circuit_labels k words.now circuit.now) }
    ensures sound { IsSound circuit.now.net }
    ensures is_bound { IsOneCycle circuit.now.net circuit.now.binding }
{
    let count = circuit.net().nets();
    let mut labels = labels_for(alloc, words, k)?;
    let first = labels.ranks();
    add_nets(&mut labels, circuit, count, first)?;
    Ok(labels)
}

// Adds the nets that are no bits of words, which have the first ranks.
fn add_nets(
    labels: &mut Labels,
    circuit: &Combinational,
    count: u32,
    first: u64,
) -> Result<(), AllocError>
    requires none { labels.old.nets ≡ [] }
    requires count { count ≡ nets_of circuit.now.net }
    requires first { first ≡ length (bits_of circuit.now.binding.words) }
    ensures { OnOk result (labels.new ≡ with_nets labels.old (others (nets_of circuit.now.net) (bits_of circuit.now.binding.words))) }
{
    for net in 0..count {
        let is_bit = u64::from(circuit.rank_of(net)) < first;
        add_net(labels, net, is_bit)?;
    }
    Ok(())
}

// Adds a net that is no bit of a word.
fn add_net(labels: &mut Labels, net: u32, is_bit: bool) -> Result<(), AllocError>
    requires { Differs net labels.old.nets }
    ensures { OnOk result (labels.new ≡ with_nets labels.old (labels.old.nets ++ cond is_bit [] (net ∷ []))) }
{
    if is_bit { Ok(()) } else { labels.net(net) }
}
