//! A hierarchical netlist: its models, to whose first one the words of a signature bind.
ghost use Rattle.std.specs.Prelude.{◌≡◌, ◌≤◌, ℕ, length, IfOk, Ok};
ghost use Rattle.outcome.specs.Outcome.{Within};
ghost use Rattle.net_words.specs.Binding.{AreWords};
ghost use Rattle.net_words.specs.Feeds.{AreFeeds};
ghost use Rattle.job_words.specs.Stop.{GivesBy};
ghost use Rattle.job_words.specs.declared.fault.Fault.TheVariants.{Netlist};
ghost use Rattle.job_input.specs.HierarchyIn.{HierarchyIn, HierarchyOf, TopBinds};
ghost use Rattle.job_input.specs.Reads.{ReadsOver};
ghost use Rattle.job_input.specs.Setting.{IsReady, roles_of};
ghost use Rattle.job_input.specs.private.NetlistReading.{FitsNetlist};

use crate::files::read_file;
use crate::netlist::{Refusal, blif_design, bound_to, model_fault, text_fault};
use crate::setting::Setting;
use crate::stops::netlist_stop;
use job_io::Shelf;
use job_words::Stop;
use net_blif::Design;
use net_flat::flatten;
use net_signature::Signature;
use std::alloc::Global;

/// The models of a file in BLIF, to whose first one, flattened, the words and feeds of the setting bind, or the first fault: that of
/// the file, of its text, of the first model's net, or of the binding.
pub fn read_hierarchy<S: Shelf>(
    alloc: Global,
    shelf: &mut S,
    setting: &Setting,
    file: &str,
) -> Result<Design, Stop>
    requires { (k : ℕ) × (product : ℕ → ℕ → ℕ) × IsReady k product setting.now }
    ensures held { S.held shelf.new ≡ S.held shelf.old }
    ensures never_fall { (S.faults shelf.old ≤ S.faults shelf.new) × (S.misses shelf.old ≤ S.misses shelf.new) }
    ensures gives { ReadsOver S.held S.misses S.faults shelf.old shelf.new result (λ held. HierarchyIn held setting.now.signature file.now) }
    ensures top { IfOk result (λ design. TopBinds setting.now.signature design (Ok tt)) }
{
    let text = match read_file(alloc, shelf, file) {
        Ok(text) => text,
        Err(stop) => return Err(stop),
    };
    hierarchy_of(alloc, &setting.signature, file, text)
}

// The models of a text of at most 67,108,864 bytes.
fn hierarchy_of(
    alloc: Global,
    signature: &Signature,
    file: &str,
    text: Vec<u8>,
) -> Result<Design, Stop>
    requires short { length text.items ≤ 67108864 }
    requires words { (k : ℕ) × AreWords k signature.now.words × AreFeeds k (roles_of signature.now.words) signature.now.feeds }
    ensures gives { GivesBy (λ design. design) result (Within (Netlist file.now) (HierarchyOf signature.now text.items)) ⊥ ⊥ }
    ensures top { IfOk result (λ design. TopBinds signature.now design (Ok tt)) }
{
    match design_of(alloc, signature, text) {
        Ok(design) => Ok(design),
        Err(refusal) => Err(netlist_stop(alloc, file, refusal)),
    }
}

// The models of a text, or why it is refused, where no file is named yet.
fn design_of(alloc: Global, signature: &Signature, text: Vec<u8>) -> Result<Design, Refusal>
    requires short { length text.items ≤ 67108864 }
    requires words { (k : ℕ) × AreWords k signature.now.words × AreFeeds k (roles_of signature.now.words) signature.now.feeds }
    ensures fits { FitsNetlist result (HierarchyOf signature.now text.items) }
    ensures top { IfOk result (λ design. TopBinds signature.now design (Ok tt)) }
{
    let design = match blif_design(alloc, text) {
        Ok(design) => design,
        Err(fault) => return Err(text_fault(fault)),
    };
    match bind_top(alloc, signature, &design) {
        Ok(()) => Ok(design),
        Err(refusal) => Err(refusal),
    }
}

// Binds the words and feeds to the first model's net.
fn bind_top(alloc: Global, signature: &Signature, design: &Design) -> Result<(), Refusal>
    requires words { (k : ℕ) × AreWords k signature.now.words × AreFeeds k (roles_of signature.now.words) signature.now.feeds }
    ensures fits { FitsNetlist result (TopBinds signature.now design.now) }
{
    let net = match flatten(alloc, design, 0) {
        Ok(net) => net,
        Err(fault) => return Err(model_fault(fault)),
    };
    match bound_to(alloc, signature.words(), signature.feeds(), net) {
        Ok(_bound) => Ok(()),
        Err(refusal) => Err(refusal),
    }
}
