//! The circuit of a netlist's file.
ghost use Rattle.std.specs.Prelude.{◌≡◌, ◌≤◌, ℕ, length, IfOk};
ghost use Rattle.outcome.specs.Outcome.{Within};
ghost use Rattle.net_words.specs.Bind.{bits_of};
ghost use Rattle.net_words.specs.Binding.{AreWords};
ghost use Rattle.net_words.specs.Feeds.{AreFeeds};
ghost use Rattle.job_words.specs.Stop.{GivesBy};
ghost use Rattle.job_words.specs.declared.fault.Fault.TheVariants.{Netlist};
ghost use Rattle.job_input.specs.CircuitOf.{CircuitIn, UnrolledIn};
ghost use Rattle.job_input.specs.NetlistOf.{BoundNetOf, NetlistIn, by_ending};
ghost use Rattle.job_input.specs.Reads.{ReadsOver};
ghost use Rattle.job_input.specs.Setting.{IsReady, IsTakenFor, roles_of};
ghost use Rattle.job_input.specs.declared.setting.Setting.{Setting as SettingOfJob};

use crate::bound::BoundNetlist;
use crate::cycles::all_cycles;
use crate::files::read_file;
use crate::netlist::bound_net;
use crate::setting::Setting;
use crate::stops::netlist_stop;
use job_io::Shelf;
use job_words::Stop;
use net_signature::Signature;
use net_words::Combinational;
use std::alloc::Global;

/// The net of a netlist's file, to which the words and feeds of the setting are bound, or the first fault: that of the file,
/// of its text, of its net, or of the binding.
pub fn read_netlist<S: Shelf>(
    alloc: Global,
    shelf: &mut S,
    setting: &Setting,
    file: &str,
) -> Result<BoundNetlist, Stop>
    requires { (k : ℕ) × (product : ℕ → ℕ → ℕ) × IsReady k product setting.now }
    ensures held { S.held shelf.new ≡ S.held shelf.old }
    ensures never_fall { (S.faults shelf.old ≤ S.faults shelf.new) × (S.misses shelf.old ≤ S.misses shelf.new) }
    ensures gives { ReadsOver S.held S.misses S.faults shelf.old shelf.new result (λ held. NetlistIn held setting.now.signature file.now) }
    ensures taken { IfOk result (λ netlist. (k : ℕ) (product : ℕ → ℕ → ℕ) → IsReady k product setting.now → IsTakenFor k setting.now netlist) }
{
    let text = match read_file(alloc, shelf, file) {
        Ok(text) => text,
        Err(stop) => return Err(stop),
    };
    netlist_of(alloc, &setting.signature, file, text)
}

// The netlist of a text of at most 67,108,864 bytes.
fn netlist_of(
    alloc: Global,
    signature: &Signature,
    file: &str,
    text: Vec<u8>,
) -> Result<BoundNetlist, Stop>
    requires short { length text.items ≤ 67108864 }
    requires words { (k : ℕ) × AreWords k signature.now.words × AreFeeds k (roles_of signature.now.words) signature.now.feeds }
    ensures gives { GivesBy (λ netlist. netlist) result (Within (Netlist file.now) (BoundNetOf signature.now (by_ending file.now text.items))) ⊥ ⊥ }
    ensures bits { IfOk result (λ netlist. netlist.binding.k ≡ bits_of signature.now.words) }
{
    match bound_net(alloc, signature, file, text) {
        Ok(netlist) => Ok(netlist),
        Err(refusal) => Err(netlist_stop(alloc, file, refusal)),
    }
}

/// The circuit of a file's netlist, over at most 4,096 cycles after the first, or the fault of too many nets, and else of too
/// many gates.
pub fn unroll_netlist(
    alloc: Global,
    file: &str,
    netlist: BoundNetlist,
    cycles: u32,
) -> Result<Combinational, Stop>
    requires { cycles ≤ 4096 }
    ensures gives { GivesBy (λ circuit. circuit) result (UnrolledIn file.now netlist cycles) ⊥ ⊥ }
    ensures taken { IfOk result (λ circuit. (k : ℕ) (setting : SettingOfJob) → IsTakenFor k setting netlist → IsTakenFor k setting circuit) }
{
    match all_cycles(alloc, netlist, cycles) {
        Ok(circuit) => Ok(circuit),
        Err(refusal) => Err(netlist_stop(alloc, file, refusal)),
    }
}

/// The circuit of a netlist's file, to which the words and feeds of the setting are bound, over at most 4,096 cycles after the
/// first; or the first fault: that of the netlist, or of unrolling it.
pub fn read_circuit<S: Shelf>(
    alloc: Global,
    shelf: &mut S,
    setting: &Setting,
    file: &str,
    cycles: u32,
) -> Result<Combinational, Stop>
    requires ready { (k : ℕ) × (product : ℕ → ℕ → ℕ) × IsReady k product setting.now }
    requires cycles { cycles ≤ 4096 }
    ensures held { S.held shelf.new ≡ S.held shelf.old }
    ensures never_fall { (S.faults shelf.old ≤ S.faults shelf.new) × (S.misses shelf.old ≤ S.misses shelf.new) }
    ensures gives { ReadsOver S.held S.misses S.faults shelf.old shelf.new result (λ held. CircuitIn held setting.now.signature file.now cycles) }
    ensures taken { IfOk result (λ circuit. (k : ℕ) (product : ℕ → ℕ → ℕ) → IsReady k product setting.now → IsTakenFor k setting.now circuit) }
{
    match read_netlist(alloc, shelf, setting, file) {
        Ok(netlist) => unroll_netlist(alloc, file, netlist, cycles),
        Err(stop) => Err(stop),
    }
}
