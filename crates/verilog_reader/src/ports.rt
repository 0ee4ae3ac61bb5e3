//! Ports of declared names.
ghost use Rattle.std.specs.Prelude.{◌≡◌, ◌≤◌, ◌+◌, ◌-◌, Ok, Err, OnOk, IfErr};
ghost use Rattle.net_core.specs.Inside.{IsNetName};
ghost use Rattle.net_verilog.specs.Declarations.{bit_name as bit_that};
ghost use Rattle.net_verilog.specs.private.Decimals.{IsSmall};
ghost use Rattle.net_verilog.specs.private.Gates.{IsRefused};
ghost use Rattle.verilog_reader.specs.Declares.{HasShortNames, bits_from, net_names, ported, with_port_named, with_ports};
ghost use Rattle.verilog_reader.specs.private.Meets.{AreShort};

use net_core::NetMaker;
use net_verilog::{Direction, VerilogFault, bit_name, mentioned};
use std::alloc::Global;

// Makes a net of this name, if it is new, and a port of it.
fn make_port(maker: &mut NetMaker, direction: Direction, name: &str) -> Result<(), VerilogFault>
    requires { IsNetName name.now }
    ensures made { OnOk result (with_port_named direction maker.old name.now ≡ Ok maker.new) }
    ensures fault { IfErr result (λ e. IsRefused (with_port_named direction maker.old name.now) e) }
{
    let net = match mentioned(maker, name) {
        Ok(net) => net,
        Err(fault) => return Err(fault),
    };
    match direction {
        Direction::Input => maker.input(net)?,
        Direction::Output => maker.output(net)?,
        Direction::Wire => (),
    }
    Ok(())
}

// Makes a port of a bit.
fn make_bit(
    alloc: Global,
    maker: &mut NetMaker,
    direction: Direction,
    name: &str,
    index: u32,
) -> Result<(), VerilogFault>
    requires { IsNetName (bit_that name.now index) }
    ensures made { OnOk result (with_port_named direction maker.old (bit_that name.now index) ≡ Ok maker.new) }
    ensures fault { IfErr result (λ e. IsRefused (with_port_named direction maker.old (bit_that name.now index)) e) }
{
    let bit = bit_name(alloc, name, index)?;
    match make_port(maker, direction, bit.as_str()) {
        Ok(()) => Ok(()),
        Err(fault) => Err(fault),
    }
}

// Makes the ports of a vector, from the lowest index to the highest.
fn make_bits(
    alloc: Global,
    maker: &mut NetMaker,
    direction: Direction,
    name: &str,
    low: u32,
    high: u32,
) -> Result<(), VerilogFault>
    requires small { high ≤ 65535 }
    requires short { AreShort name.now low (1 + high) }
    ensures made { OnOk result (with_ports direction maker.old (bits_from name.now low (1 + high - low)) ≡ Ok maker.new) }
    ensures fault { IfErr result (λ e. IsRefused (with_ports direction maker.old (bits_from name.now low (1 + high - low))) e) }
{
    for index in low..high + 1 {
        match make_bit(alloc, maker, direction, name, index) {
            Ok(()) => (),
            Err(fault) => return Err(fault),
        }
    }
    Ok(())
}

// Makes the ports of a scalar or a vector.
fn make_nets(
    alloc: Global,
    maker: &mut NetMaker,
    range: Option<(u32, u32)>,
    direction: Direction,
    name: &str,
) -> Result<(), VerilogFault>
    requires name { IsNetName name.now }
    requires small { IsSmall range }
    requires short { HasShortNames name.now range }
    ensures made { OnOk result (with_ports direction maker.old (net_names name.now range) ≡ Ok maker.new) }
    ensures fault { IfErr result (λ e. IsRefused (with_ports direction maker.old (net_names name.now range)) e) }
{
    match range {
        None => match make_port(maker, direction, name) {
            Ok(()) => Ok(()),
            Err(fault) => Err(fault),
        },
        Some((low, high)) => match make_bits(alloc, maker, direction, name, low, high) {
            Ok(()) => Ok(()),
            Err(fault) => Err(fault),
        },
    }
}

/// Makes the ports of a declared name, from the lowest index to the highest; a wire alone makes no net.
pub fn make_ports(
    alloc: Global,
    maker: &mut NetMaker,
    range: Option<(u32, u32)>,
    direction: Direction,
    name: &str,
) -> Result<(), VerilogFault>
    requires name { IsNetName name.now }
    requires small { IsSmall range }
    requires short { HasShortNames name.now range }
    ensures made { OnOk result (ported direction maker.old name.now range ≡ Ok maker.new) }
    ensures fault { IfErr result (λ e. IsRefused (ported direction maker.old name.now range) e) }
{
    match direction {
        Direction::Wire => Ok(()),
        Direction::Input => make_nets(alloc, maker, range, direction, name),
        Direction::Output => make_nets(alloc, maker, range, direction, name),
    }
}
