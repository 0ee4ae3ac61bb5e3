//! The reader of structural Verilog.
ghost use Rattle.std.specs.Prelude.{◌≡◌, ◌⊎◌, ◌≤◌, Ok, Err, IfOk, IfErr, OnOk, length};
ghost use Rattle.net_core.specs.NetList.{empty};
ghost use Rattle.net_verilog.specs.Tokens.{tokens_of};
ghost use Rattle.verilog_reader.specs.Modules.{Module, VerilogNet};

use crate::module::read_module;
use crate::scope::Scope;
use net_core::{Net, NetMaker, key_of};
use net_verilog::{Cursor, VerilogFault, fault_of};
use std::alloc::Global;

// Reads the module of a text.
fn read_into(
    alloc: Global,
    key: u64,
    maker: &mut NetMaker,
    bytes: &[u8],
) -> Result<(), VerilogFault>
    requires few { length bytes.now ≤ 67108864 }
    requires empty { maker.old ≡ empty }
    ensures made { OnOk result (Module (tokens_of bytes.now) (Ok maker.new)) }
    ensures fault { IfErr result (λ e. (e ≡ VerilogFault.OutOfMemory) ⊎ Module (tokens_of bytes.now) (Err e)) }
{
    let mut declared = Scope::new(alloc, key);
    read_module(alloc, maker, &mut declared, &Cursor::new(bytes))
}

// The net list of a text.
fn read_text(alloc: Global, bytes: &[u8]) -> Result<NetMaker, VerilogFault>
    requires { length bytes.now ≤ 67108864 }
    ensures made { IfOk result (λ maker. Module (tokens_of bytes.now) (Ok maker)) }
    ensures fault { IfErr result (λ e. (e ≡ VerilogFault.OutOfMemory) ⊎ Module (tokens_of bytes.now) (Err e)) }
{
    let key = key_of(bytes);
    let mut maker = NetMaker::keyed(alloc, key);
    match read_into(alloc, key, &mut maker, bytes) {
        Ok(()) => Ok(maker),
        Err(fault) => Err(fault),
    }
}

/// The net of a text in structural Verilog, of at most 67,108,864 bytes, or its first fault. Faults are decided at the first
/// token at which one stands, and at one token in this order: `LeftOut`, `Syntax`, `Undeclared`, `OutOfRange`, `Redeclared`;
/// `Arity` stands at the `)` of its instance, and a limit of the net where the net or gate is made. After the text comes `Net`
/// where the net is not sound. It may run out of memory at any place.
pub fn read_verilog(alloc: Global, bytes: &[u8]) -> Result<Net, VerilogFault>
    requires { length bytes.now ≤ 67108864 }
    ensures net { IfOk result (λ net. VerilogNet bytes.now (Ok net)) }
    ensures fault { IfErr result (λ e. (e ≡ VerilogFault.OutOfMemory) ⊎ VerilogNet bytes.now (Err e)) }
{
    let maker = match read_text(alloc, bytes) {
        Ok(maker) => maker,
        Err(fault) => return Err(fault),
    };
    match maker.finish() {
        Ok(net) => Ok(net),
        Err(fault) => Err(fault_of(fault)),
    }
}
