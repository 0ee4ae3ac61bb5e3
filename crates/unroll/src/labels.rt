//! The nets of all cycles, with their labels.
ghost use Rattle.std.specs.Prelude.{◌≡◌, ◌<◌, ◌≤◌, ◌+◌, [], ◌∷◌, ◌++◌, Some, codes, false, length, map, slice_get, string_bytes, IfOk, OnOk};
ghost use Rattle.std.specs.Fmt.{decimal};
ghost use Rattle.lists.specs.Limits.{most_nets};
ghost use Rattle.net_core.specs.NetList.{nets};
ghost use Rattle.unroll.specs.Nets.{fed_labels, labels_to, unnamed, bit_labels};
ghost use Rattle.unroll.specs.Places.{fed_bits};
ghost use Rattle.unroll.specs.private.Plan.{with_labels, OfWord};

use crate::gates::memory;
use crate::plan::Plan;
use net_core::NetMaker;
use net_words::Role;
use std::alloc::{AllocError, Global};

// Adds a net that no name finds.
fn add_label(maker: &mut NetMaker, label: &str) -> Result<(), AllocError>
    requires { nets maker.old < most_nets }
    ensures { OnOk result (maker.new ≡ with_labels maker.old (record { text = label.now; named = false } ∷ [])) }
{
    match maker.fresh(label) {
        Ok(_) => Ok(()),
        Err(fault) => Err(memory(fault)),
    }
}

// The label of a bit of a word.
fn bit_label(alloc: Global, name: &str, i: u32) -> Result<String, AllocError>
    ensures { IfOk result (λ label. string_bytes label ≡ name.now ++ (codes "[" ++ (decimal i ++ codes "]"))) }
{
    format!(in alloc; "{name}[{i}]")
}

impl Plan {
    // Adds the nets of one cycle.
    fn add_cycle_labels(&self, maker: &mut NetMaker) -> Result<(), AllocError>
        requires { nets maker.old + nets self.now.net ≤ most_nets }
        ensures { OnOk result (maker.new ≡ with_labels maker.old (map unnamed self.now.net.labels)) }
    {
        for n in 0..self.net.nets() {
            add_label(maker, self.net.label(n))?;
        }
        Ok(())
    }

    // Adds the nets of all cycles.
    fn add_labels(&self, maker: &mut NetMaker) -> Result<(), AllocError>
        requires { nets maker.old + length (labels_to self.now.net.labels self.now.cycles) ≤ most_nets }
        ensures { OnOk result (maker.new ≡ with_labels maker.old (labels_to self.now.net.labels self.now.cycles)) }
    {
        self.add_cycle_labels(maker)?;
        for _ in 0..self.cycles {
            self.add_cycle_labels(maker)?;
        }
        Ok(())
    }

    // Adds a net for each bit of word w, below the number of words.
    fn add_bit_labels(&self, alloc: Global, maker: &mut NetMaker, w: u32) -> Result<(), AllocError>
        requires word { w < length self.now.binding.words }
        requires room { nets maker.old + self.now.binding.k ≤ most_nets }
        ensures { OnOk result (OfWord self.now.binding w (λ word. maker.new ≡ with_labels maker.old (bit_labels word self.now.binding.k))) }
    {
        for i in 0..self.binding.k() {
            let label = bit_label(alloc, self.binding.name(w), i)?;
            add_label(maker, &label)?;
        }
        Ok(())
    }

    // Adds the nets that word w, below the number of words, has after those of the cycles.
    fn add_word_labels(&self, alloc: Global, maker: &mut NetMaker, w: u32) -> Result<(), AllocError>
        requires word { w < length self.now.binding.words }
        requires room { (word : _) → slice_get self.now.binding.words w ≡ Some word → nets maker.old + fed_bits self.now.binding.k word.role ≤ most_nets }
        ensures { OnOk result (OfWord self.now.binding w (λ word. maker.new ≡ with_labels maker.old (bit_labels word (fed_bits self.now.binding.k word.role)))) }
    {
        match self.binding.role(w) {
            Role::Fed => self.add_bit_labels(alloc, maker, w),
            Role::Input | Role::State | Role::Output => Ok(()),
        }
    }

    // Adds the nets of the bits of the fed words.
    fn add_fed_labels(&self, alloc: Global, maker: &mut NetMaker) -> Result<(), AllocError>
        requires { nets maker.old + length (fed_labels self.now.binding.k self.now.binding.words) ≤ most_nets }
        ensures { OnOk result (maker.new ≡ with_labels maker.old (fed_labels self.now.binding.k self.now.binding.words)) }
    {
        for w in 0..self.binding.words() {
            self.add_word_labels(alloc, maker, w)?;
        }
        Ok(())
    }

    /// Adds the nets of all cycles and the bits of the fed words to a net list without nets.
    pub fn add_nets(&self, alloc: Global, maker: &mut NetMaker) -> Result<(), AllocError>
        requires { nets maker.old ≡ 0 }
        ensures { OnOk result (maker.new ≡ with_labels maker.old (labels_to self.now.net.labels self.now.cycles ++ fed_labels self.now.binding.k self.now.binding.words)) }
    {
        self.add_labels(maker)?;
        self.add_fed_labels(alloc, maker)
    }
}
