//! Ports whose names another one may have: those that are given a name, and those that have a given name by default.
ghost use Rattle.std.specs.Prelude.{◌≡◌, ◌<◌, ◌^◌, ◌∷◌, [], ℕ, Some, not, true, slice_get, length, IfOk, OnOk};
ghost use Rattle.net_aiger.specs.Reading.{Name, default_name, stands};
ghost use Rattle.net_aiger.specs.private.Shared.{AreNoted, IsNoted, Keeps, first_of};

use crate::reader::Reader;
use crate::reading::Header;
use indexmap::IndexSet;
use net_core::KeyedHash;
use std::alloc::{AllocError, Global};
use std::marker::Model;
use text_core::read_decimal;

/// Ports that were met. Contracts see the list of them.
#[derive(Drop)]
pub(crate) struct PortSet {
    ports: IndexSet<u64, KeyedHash>,
}

impl Model for PortSet {
    ghost use Rattle.std.specs.Prelude.{List, ℕ};

    ghost Value = { List ℕ };

    ghost view = { λ s. s.ports.keys };
}

impl PortSet {
    fn new(alloc: Global, key: u64) -> PortSet
        ensures { result ≡ [] }
    {
        PortSet {
            ports: IndexSet::with_hasher(alloc, KeyedHash::new(key)),
        }
    }

    // Adds a port.
    fn add(&mut self, port: u64) -> Result<(), AllocError>
        ensures keeps { OnOk result (Keeps self.old self.new) }
        ensures added { OnOk result (stands self.new port ≡ true) }
    {
        self.ports.insert(port)?;
        Ok(())
    }

    /// Whether a port is not among them.
    pub(crate) fn lacks(&self, port: u64) -> bool
        ensures { result ≡ not (stands self.now port) }
    {
        !self.ports.contains(&port)
    }
}

// The number that a place counts from behind a letter: 0 behind `i`, that of the first latch behind `l`, and that of the first
// output behind any other.
fn first_port(header: Header, letter: u8) -> u64
    ensures { result ≡ first_of header letter }
{
    if letter == b'i' {
        0
    } else if letter == b'l' {
        u64::from(header.inputs)
    } else {
        header.driven()
    }
}

// The port whose default name is a letter with digits behind it. Where there is none, it is any port.
fn port_called(header: Header, letter: u8, digits: &[u8]) -> u64
    ensures { (port : ℕ) → port < 2 ^ 64 → default_name header port ≡ letter ∷ digits.now → result ≡ port }
{
    match read_decimal(digits, u128::from(u64::MAX)) {
        Some(place) => first_port(header, letter).saturating_add(place as u64),
        None => 0,
    }
}

// The port that has a name by default. Where there is none, it is any port.
fn default_port(header: Header, name: &[u8]) -> u64
    ensures { (port : ℕ) → port < 2 ^ 64 → default_name header port ≡ name.now → result ≡ port }
{
    match name {
        [letter, digits @ ..] => port_called(header, *letter, digits),
        [] => 0,
    }
}

// Adds the port that a name is given to, and the one that has it by default.
fn add_symbol(ports: &mut PortSet, header: Header, port: u64, name: &[u8]) -> Result<(), AllocError>
    ensures keeps { OnOk result (Keeps ports.old ports.new) }
    ensures noted { OnOk result (IsNoted header ports.new (port, name.now)) }
{
    ports.add(port)?;
    ports.add(default_port(header, name))?;
    Ok(())
}

impl Reader {
    // Adds the ports of the given name that stands at a place.
    fn add_shared(&self, ports: &mut PortSet, place: usize) -> Result<(), AllocError>
        ensures keeps { OnOk result (Keeps ports.old ports.new) }
        ensures noted { OnOk result ((symbol : ℕ × Name) → slice_get self.now.symbols place ≡ Some symbol → IsNoted self.now.header ports.new symbol) }
    {
        let Some((port, name)) = self.symbol(place) else {
            return Ok(());
        };
        add_symbol(ports, self.header(), port, name)?;
        Ok(())
    }

    /// The ports whose names another one may have.
    pub(crate) fn shared_ports(&self, key: u64) -> Result<PortSet, AllocError>
        ensures { IfOk result (λ ports. AreNoted self.now ports (length self.now.symbols)) }
    {
        let mut ports = PortSet::new(self.alloc, key);
        for place in 0..self.symbols() {
            self.add_shared(&mut ports, place)?;
        }
        Ok(ports)
    }
}
