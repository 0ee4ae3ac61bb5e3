//! Nets and gates of expressions.
ghost use Rattle.std.specs.Prelude.{◌≡◌, ◌⊎◌, ◌<◌, ◌≤◌, ◌^◌, Ok, Err, All, IfOk, IfErr, length, OnOk};
ghost use Rattle.net_core.specs.NetList.{nets};
ghost use Rattle.net_verilog.specs.Made.{driven, fresh_driven, mentioned as mentioned_net, operator_table as table_that, settled, with_gate_of};
ghost use Rattle.net_verilog.specs.private.Gates.{IsDriverOn, IsRefused};
ghost use Rattle.net_core.specs.Inside.{IsNetName};

use crate::{Driver, Operator, VerilogFault};
use net_core::{NetFault, NetMaker};
use std::alloc::Global;

/// A fault of nets, or out of memory.
pub fn fault_of(fault: NetFault) -> VerilogFault
    ensures { ((fault ≡ NetFault.OutOfMemory) × (result ≡ VerilogFault.OutOfMemory)) ⊎ (¬ (fault ≡ NetFault.OutOfMemory) × (result ≡ VerilogFault.Net fault)) }
{
    match fault {
        NetFault::OutOfMemory => VerilogFault::OutOfMemory,
        fault => VerilogFault::Net(fault),
    }
}

/// The number of the net of a name, which is made if it is new.
pub fn mentioned(maker: &mut NetMaker, name: &str) -> Result<u32, VerilogFault>
    requires { IsNetName name.now }
    ensures made { IfOk result (λ n. mentioned_net maker.old name.now ≡ Ok (maker.new, n)) }
    ensures within { IfOk result (λ n. n < nets maker.new) }
    ensures grows { nets maker.old ≤ nets maker.new }
    ensures fault { IfErr result (λ e. IsRefused (mentioned_net maker.old name.now) e) }
{
    match maker.net(name) {
        Ok(number) => Ok(number),
        Err(fault) => Err(fault_of(fault)),
    }
}

/// Adds a gate.
pub fn add(maker: &mut NetMaker, out: u32, inputs: &[u32], table: u64) -> Result<(), VerilogFault>
    requires few { length inputs.now ≤ 6 }
    requires out { out < nets maker.old }
    requires inputs { All (λ n. n < nets maker.old) inputs.now }
    requires table { table < 2 ^ (2 ^ length inputs.now) }
    ensures made { OnOk result (with_gate_of maker.old out inputs.now table ≡ Ok maker.new) }
    ensures same { OnOk result (nets maker.new ≡ nets maker.old) }
    ensures fault { IfErr result (λ e. IsRefused (with_gate_of maker.old out inputs.now table) e) }
{
    match maker.gate(out, inputs, table) {
        Ok(()) => Ok(()),
        Err(fault) => Err(fault_of(fault)),
    }
}

fn operator_table(operator: Operator) -> u64
    ensures same { result ≡ table_that operator }
    ensures few { result < 16 }
{
    match operator {
        Operator::And => 8,
        Operator::Or => 14,
        Operator::Xor => 6,
        Operator::Xnor => 9,
    }
}

/// Adds the gate that drives a net.
pub fn drive(maker: &mut NetMaker, out: u32, driver: Driver) -> Result<(), VerilogFault>
    requires out { out < nets maker.old }
    requires inputs { IsDriverOn maker.old driver }
    ensures made { OnOk result (driven maker.old out driver ≡ Ok maker.new) }
    ensures same { OnOk result (nets maker.new ≡ nets maker.old) }
    ensures fault { IfErr result (λ e. IsRefused (driven maker.old out driver) e) }
{
    match driver {
        Driver::Wire(net) => add(maker, out, &[net], 2),
        Driver::Literal { bit, .. } => add(maker, out, &[], if bit { 1 } else { 0 }),
        Driver::Not { net, .. } => add(maker, out, &[net], 1),
        Driver::Binary {
            operator,
            left,
            right,
            ..
        } => add(maker, out, &[left, right], operator_table(operator)),
    }
}

// A fresh net and the gate that drives it.
fn fresh(
    alloc: Global,
    maker: &mut NetMaker,
    line: u32,
    driver: Driver,
) -> Result<u32, VerilogFault>
    requires { IsDriverOn maker.old driver }
    ensures made { IfOk result (λ n. fresh_driven maker.old line driver ≡ Ok (maker.new, n)) }
    ensures within { IfOk result (λ n. n < nets maker.new) }
    ensures grows { OnOk result (nets maker.old ≤ nets maker.new) }
    ensures fault { IfErr result (λ e. IsRefused (fresh_driven maker.old line driver) e) }
{
    let label = format!(in alloc; "expr{line}")?;
    let net = match maker.fresh(label.as_str()) {
        Ok(net) => net,
        Err(fault) => return Err(fault_of(fault)),
    };
    drive(maker, net, driver)?;
    Ok(net)
}

/// The net of an operand.
pub fn settle(alloc: Global, maker: &mut NetMaker, driver: Driver) -> Result<u32, VerilogFault>
    requires { IsDriverOn maker.old driver }
    ensures made { IfOk result (λ n. settled maker.old driver ≡ Ok (maker.new, n)) }
    ensures within { IfOk result (λ n. n < nets maker.new) }
    ensures grows { OnOk result (nets maker.old ≤ nets maker.new) }
    ensures fault { IfErr result (λ e. IsRefused (settled maker.old driver) e) }
{
    match driver {
        Driver::Wire(net) => Ok(net),
        Driver::Literal { line, .. } => fresh(alloc, maker, line, driver),
        Driver::Not { line, .. } => fresh(alloc, maker, line, driver),
        Driver::Binary { line, .. } => fresh(alloc, maker, line, driver),
    }
}
