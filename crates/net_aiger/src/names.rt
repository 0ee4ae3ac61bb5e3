//! Names of inputs, latches and outputs.
ghost use Rattle.std.specs.Prelude.{◌≡◌, ◌+◌, ◌++◌, ◌∷◌, [], nat_eq, None, Some, OnOk, drop};
ghost use Rattle.std.specs.List.{list_all};
ghost use Rattle.std.specs.Map.{lookup};
ghost use Rattle.net_core.specs.Inside.{IsNetName};
ghost use Rattle.net_aiger.specs.Spelling.{is_port_name as may_name, is_shown, port_at as port_that};
ghost use Rattle.net_aiger.specs.private.Run.{Follows, before_space as front_of, named, symbol_line as symbol_says};

use crate::AigerFault;
use crate::numbers::number;
use crate::reader::Reader;
use crate::reading::Header;
use net_core::Name;
use std::alloc::AllocError;
use text_core::ascii_text;

// The bytes up to the first space.
fn before_space(bytes: &[u8]) -> &[u8]
    ensures { result.now ≡ front_of bytes.now }
{
    for (i, byte) in bytes.iter().enumerate() {
        if *byte == b' ' {
            return &bytes[..i];
        }
    }
    bytes
}

// What stands behind so many bytes and one more.
fn behind(bytes: &[u8], count: usize) -> &[u8]
    ensures { result.now ≡ drop (count + 1) bytes.now }
{
    if count < bytes.len() {
        &bytes[count + 1..]
    } else {
        &bytes[bytes.len()..]
    }
}

// Whether each byte is a space or prints.
fn are_shown(bytes: &[u8]) -> bool
    ensures { result ≡ list_all is_shown bytes.now }
{
    for byte in bytes {
        if *byte < 0x20 || 0x7e < *byte {
            return false;
        }
    }
    true
}

// Whether bytes can name a port.
fn is_port_name(name: &[u8]) -> bool
    ensures { result ≡ may_name name.now }
{
    (1 <= name.len() && name.len() <= 255) && are_shown(name)
}

// The number of an input, a latch or an output by its place.
fn port_at(header: Header, letter: u8, place: u32) -> Option<u64>
    ensures { result ≡ port_that header letter place }
{
    if letter == b'i' && place < header.inputs {
        Some(u64::from(place))
    } else if letter == b'l' && place < header.latches {
        Some(u64::from(header.inputs) + u64::from(place))
    } else if letter == b'o' && place < header.outputs {
        Some(header.driven() + u64::from(place))
    } else {
        None
    }
}

impl Reader {
    // Gives a port without a name this one.
    fn insert_name(&mut self, port: u64, name: Name) -> Result<(), AllocError>
        requires fits { IsNetName name }
        requires is_new { lookup (nat_eq port) self.old.symbols ≡ None }
        ensures { OnOk result (self.new ≡ record self.old { symbols = self.old.symbols ++ (port, name) ∷ [] }) }
    {
        self.symbols.insert(port, name)?;
        Ok(())
    }

    // Gives a port a name, if it has none.
    fn give_name(&mut self, line: u32, name: &[u8], port: u64) -> Result<(), AigerFault>
        ensures { Follows result self.new (named line name.now (Some port) self.old) }
    {
        if !is_port_name(name) || self.symbols.contains_key(&port) {
            return Err(AigerFault::Syntax { line });
        }
        let Some(text) = ascii_text(name) else {
            unreachable!();
        };
        let text = Name::new(self.alloc, text)?;
        self.insert_name(port, text)?;
        Ok(())
    }

    /// What a line behind the numbers says: a letter, a place, a space and a name.
    pub(crate) fn symbol_line(&mut self, line: u32, bytes: &[u8]) -> Result<(), AigerFault>
        ensures { Follows result self.new (symbol_says line bytes.now self.old) }
    {
        let [letter, rest @ ..] = bytes else {
            return Err(AigerFault::Syntax { line });
        };
        let digits = before_space(rest);
        let name = behind(rest, digits.len());
        let Some(place) = number(digits) else {
            return Err(AigerFault::Syntax { line });
        };
        let Some(port) = port_at(self.header, *letter, place) else {
            return Err(AigerFault::Syntax { line });
        };
        self.give_name(line, name, port)
    }
}
