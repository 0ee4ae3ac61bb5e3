//! The reader of ASCII AIGER.
ghost use Rattle.std.specs.Prelude.{◌≡◌, ◌⊎◌, ◌≤◌, Ok, Err, true, IfOk, IfErr, OnOk, length};
ghost use Rattle.std.specs.Str.Lines.{lines};
ghost use Rattle.net_aiger.specs.AigerNet.{AigerNet, NetOf};
ghost use Rattle.net_aiger.specs.Sections.{Text};
ghost use Rattle.net_aiger.specs.private.Run.{is_complete, lines_read};

use crate::AigerFault;
use crate::header::read_header;
use crate::make::make_net;
use crate::reader::Reader;
use net_core::{Net, NetFault, key_of};
use std::alloc::Global;
use text_core::next_line;

// What the lines behind the header say.
#[tactic(auto, using(crate::proofs::ReadLemmas::all_read, crate::proofs::ReadLemmas::cut_short))]
fn read_lines(reader: &mut Reader, text: &[u8]) -> Result<(), AigerFault>
    requires { length text.now ≤ 67108864 }
    ensures made { OnOk result (lines_read 2 (lines text.now) reader.old ≡ Ok reader.new) }
    ensures complete { OnOk result (is_complete reader.new ≡ true) }
    ensures fault { IfErr result (λ e. (e ≡ AigerFault.OutOfMemory) ⊎ (lines_read 2 (lines text.now) reader.old ≡ Err e)) }
{
    let mut rest = text;
    let mut number = 2u32;
    while !rest.is_empty() {
        let (line, after) = next_line(rest);
        if reader.ends(line) {
            return Ok(());
        }
        reader.read_line(number, line)?;
        rest = after;
        number += 1;
    }
    if reader.is_complete() {
        Ok(())
    } else {
        Err(AigerFault::Syntax { line: number })
    }
}

// What a text says by its sections.
fn read_text(alloc: Global, key: u64, text: &[u8]) -> Result<Reader, AigerFault>
    requires { length text.now ≤ 67108864 }
    ensures made { IfOk result (λ reader. Text (lines text.now) (Ok reader)) }
    ensures complete { IfOk result (λ reader. is_complete reader ≡ true) }
    ensures fault { IfErr result (λ e. (e ≡ AigerFault.OutOfMemory) ⊎ Text (lines text.now) (Err e)) }
{
    if text.is_empty() {
        return Err(AigerFault::Syntax { line: 1 });
    }
    let (line, rest) = next_line(text);
    let header = read_header(alloc, line)?;
    let mut reader = Reader::new(alloc, key, header);
    match read_lines(&mut reader, rest) {
        Ok(()) => Ok(reader),
        Err(fault) => Err(fault),
    }
}

// A fault of nets, or out of memory.
fn fault_of(fault: NetFault) -> AigerFault
    ensures { ((fault ≡ NetFault.OutOfMemory) × (result ≡ AigerFault.OutOfMemory)) ⊎ (¬ (fault ≡ NetFault.OutOfMemory) × (result ≡ AigerFault.Net fault)) }
{
    match fault {
        NetFault::OutOfMemory => AigerFault::OutOfMemory,
        fault => AigerFault::Net(fault),
    }
}

// The net of what was read.
fn net_of(reader: &Reader, key: u64) -> Result<Net, AigerFault>
    requires { is_complete reader.now ≡ true }
    ensures net { IfOk result (λ net. NetOf reader.now (Ok net)) }
    ensures fault { IfErr result (λ e. (e ≡ AigerFault.OutOfMemory) ⊎ NetOf reader.now (Err e)) }
{
    reader.check_known()?;
    reader.check_names(key)?;
    let maker = match make_net(reader, key) {
        Ok(maker) => maker,
        Err(fault) => return Err(fault_of(fault)),
    };
    match maker.finish() {
        Ok(net) => Ok(net),
        Err(fault) => Err(fault_of(fault)),
    }
}

/// The net of a text in ASCII AIGER, of at most 67,108,864 bytes, or its first fault. Line by line, and at one line in this
/// order: `Syntax`, `LeftOut`, `Literal` and `DefinedTwice`. After the last line come `Undefined` at the first line that uses
/// a variable without a definition, `NameTwice` at the line of the first input, latch or output with the name of an earlier
/// one, and `Net`, which is never out of memory. It may run out of memory at any place.
pub fn read_aiger(alloc: Global, bytes: &[u8]) -> Result<Net, AigerFault>
    requires { length bytes.now ≤ 67108864 }
    ensures net { IfOk result (λ net. AigerNet bytes.now (Ok net)) }
    ensures fault { IfErr result (λ e. (e ≡ AigerFault.OutOfMemory) ⊎ AigerNet bytes.now (Err e)) }
{
    let key = key_of(bytes);
    let reader = match read_text(alloc, key, bytes) {
        Ok(reader) => reader,
        Err(fault) => return Err(fault),
    };
    net_of(&reader, key)
}
