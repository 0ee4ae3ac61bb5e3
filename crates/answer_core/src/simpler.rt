//! The circuit of all cycles, made simpler where it is asked for.
ghost use Rattle.std.specs.Prelude.{◌≡◌, ◌≤◌, ℕ, IfOk};
ghost use Rattle.job_words.specs.Stop.{GivesBy};
ghost use Rattle.job_input.specs.Reads.{ReadsOver};
ghost use Rattle.job_input.specs.Setting.{IsReady, IsTakenFor};
ghost use Rattle.job_input.specs.declared.setting.Setting.{Setting as SettingOfJob};
ghost use Rattle.answer_core.specs.Simpler.{SimplerIn, SimplerOf, SimplerUnrolledIn};

use job_input::{BoundNetlist, Setting, read_circuit, unroll_netlist};
use job_io::Shelf;
use job_words::Stop;
use net_simplify::simplify;
use net_words::Combinational;
use std::alloc::Global;

/// The circuit of a netlist's file, as `read_circuit` gives it, or where it is asked for a simpler one of the same function.
pub fn read_simpler<S: Shelf>(
    alloc: Global,
    shelf: &mut S,
    setting: &Setting,
    file: &str,
    cycles: u32,
    simple: bool,
) -> Result<Combinational, Stop>
    requires ready { (k : ℕ) × (product : ℕ → ℕ → ℕ) × IsReady k product setting.now }
    requires cycles { cycles ≤ 4096 }
    ensures held { S.held shelf.new ≡ S.held shelf.old }
    ensures never_fall { (S.faults shelf.old ≤ S.faults shelf.new) × (S.misses shelf.old ≤ S.misses shelf.new) }
    ensures gives { ReadsOver S.held S.misses S.faults shelf.old shelf.new result (λ held. SimplerIn held setting.now.signature file.now cycles simple) }
    ensures taken { IfOk result (λ circuit. (k : ℕ) (product : ℕ → ℕ → ℕ) → IsReady k product setting.now → IsTakenFor k setting.now circuit) }
{
    match read_circuit(alloc, shelf, setting, file, cycles) {
        Ok(circuit) => simpler(alloc, circuit, simple),
        Err(stop) => Err(stop),
    }
}

/// The circuit of a file's netlist, as `unroll_netlist` gives it, or where it is asked for a simpler one of the same function.
pub fn unroll_simpler(
    alloc: Global,
    file: &str,
    netlist: BoundNetlist,
    cycles: u32,
    simple: bool,
) -> Result<Combinational, Stop>
    requires { cycles ≤ 4096 }
    ensures gives { GivesBy (λ circuit. circuit) result (SimplerUnrolledIn file.now netlist cycles simple) ⊥ ⊥ }
    ensures taken { IfOk result (λ circuit. (k : ℕ) (setting : SettingOfJob) → IsTakenFor k setting netlist → IsTakenFor k setting circuit) }
{
    match unroll_netlist(alloc, file, netlist, cycles) {
        Ok(circuit) => simpler(alloc, circuit, simple),
        Err(stop) => Err(stop),
    }
}

// The circuit itself, or the simplified one where it is asked for.
fn simpler(alloc: Global, circuit: Combinational, simple: bool) -> Result<Combinational, Stop>
    ensures gives { GivesBy (λ simpler. simpler) result (SimplerOf simple circuit) ⊥ ⊥ }
    ensures taken { IfOk result (λ simpler. (k : ℕ) (setting : SettingOfJob) → IsTakenFor k setting circuit → IsTakenFor k setting simpler) }
{
    if simple {
        let simplified = simplify(alloc, &circuit)?;
        Ok(simplified)
    } else {
        Ok(circuit)
    }
}
