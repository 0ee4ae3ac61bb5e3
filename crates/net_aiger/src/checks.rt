//! What is asked of a text once it was read.
ghost use Rattle.std.specs.Prelude.{◌≡◌, ◌⊎◌, ◌+◌, ◌<◌, ◌≤◌, ◌^◌, ◌&&◌, ◌++◌, ◌∷◌, [], ℕ, List, Ok, Err, Some, is_some, nat_eq, true, not, IfOk, IfErr, IfSome, OnOk, drop, length};
ghost use Rattle.std.specs.List.{list_any};
ghost use Rattle.std.specs.Map.{lookup};
ghost use Rattle.std.specs.Str.{bytes_eq};
ghost use Rattle.net_aiger.specs.Checks.{apart, is_known as knows, known, own as own_of, own_net};
ghost use Rattle.net_aiger.specs.Reading.{driven, port_name};
ghost use Rattle.net_aiger.specs.private.Shared.{AreNoted, HasNoneAlone};

use crate::AigerFault;
use crate::reader::{Reader, even};
use crate::shared::PortSet;
use indexmap::IndexSet;
use net_core::{KeyedHash, Name};
use std::alloc::{AllocError, Global};
use std::marker::Model;

// Names that were met. Contracts see the list of them.
struct NameSet {
    alloc: Global,
    names: IndexSet<String, KeyedHash>,
}

// By hand, so that a caller that lets one go makes one call, and not one for each part.
impl Drop for NameSet {
    fn drop(self) {
        let NameSet { alloc: _, names } = self;
        drop(names);
    }
}

impl Model for NameSet {
    ghost use Rattle.std.specs.Prelude.{List, ℕ, map, string_bytes};

    ghost Value = { List (List ℕ) };

    ghost view = { λ s. map string_bytes s.names.keys };
}

impl NameSet {
    fn new(alloc: Global, key: u64) -> NameSet
        ensures { result ≡ [] }
    {
        NameSet {
            alloc,
            names: IndexSet::with_hasher(alloc, KeyedHash::new(key)),
        }
    }

    // Adds a name, and says whether it is new.
    fn add(&mut self, name: &Name) -> Result<bool, AllocError>
        ensures added { IfOk result (λ added. added ≡ not (list_any (bytes_eq name.now) self.old)) }
        ensures more { IfOk result (λ added. added ≡ true → self.new ≡ self.old ++ name.now ∷ []) }
    {
        let text = String::from_str(self.alloc, name.as_str())?;
        let added = self.names.insert(text)?;
        Ok(added)
    }
}

// The fault of the port whose line is two behind its number. The count of lines in memory is below 2^32.
fn name_twice(port: usize) -> AigerFault
    ensures either { (result ≡ AigerFault.OutOfMemory) ⊎ (result ≡ AigerFault.NameTwice (port + 2)) }
    ensures told { port < 4294967294 → result ≡ AigerFault.NameTwice (port + 2) }
{
    match u32::try_from(port) {
        Ok(port) if port < 0xffff_fffe => AigerFault::NameTwice { line: port + 2 },
        _ => AigerFault::OutOfMemory,
    }
}

impl Reader {
    // Whether a literal is a constant, or one of a variable that is defined.
    fn is_known(&self, literal: u32) -> bool
        ensures { result ≡ knows self.now.defined literal }
    {
        literal < 2 || self.defined.contains(&even(literal))
    }

    // Whether a literal is known, where another one is.
    fn is_known_after(&self, other: u32, literal: u32) -> bool
        requires { knows self.now.defined other ≡ true }
        ensures { result ≡ knows self.now.defined literal }
    {
        literal == other || self.is_known(literal)
    }

    // Whether neither of two ports is given a name. Two different ports have different names then.
    fn have_none(&self, port: u64, other: u64) -> bool
        ensures { result ≡ (not (is_some (lookup (nat_eq port) self.now.symbols)) && not (is_some (lookup (nat_eq other) self.now.symbols))) }
    {
        !self.symbols.contains_key(&port) && !self.symbols.contains_key(&other)
    }

    // The net of an input or latch, if it has the name of a port behind it.
    fn of_name(&self, port: u64, net: u32) -> Result<Option<u32>, AllocError>
        requires { driven self.now.header ≤ port }
        ensures own { IfOk result (λ found. found ≡ own_net self.now port (Some net)) }
        ensures same { IfOk result (λ found. IfSome found (λ n. n ≡ net)) }
    {
        if u64::from(net) >= self.header.driven() {
            return Ok(None);
        }
        if self.have_none(port, u64::from(net)) {
            return Ok(None);
        }
        let name = self.port_name(port)?;
        let other = self.port_name(u64::from(net))?;
        if name.as_str() == other.as_str() {
            Ok(Some(net))
        } else {
            Ok(None)
        }
    }

    /// The net of the input or latch whose literal and name an output has.
    pub(crate) fn own(&self, port: u64, literal: u32) -> Result<Option<u32>, AllocError>
        ensures own { IfOk result (λ net. net ≡ own_of self.now port literal) }
        ensures within { IfOk result (λ net. IfSome net (λ n. n < length self.now.defined)) }
    {
        if port < self.header.driven() {
            return Ok(None);
        }
        match self.net(literal) {
            Some(net) => self.of_name(port, net),
            None => Ok(None),
        }
    }

    // Refuses a port whose name an earlier one has, unless it is an input or a latch.
    fn check_name(&self, names: &mut NameSet, port: usize, literal: u32) -> Result<(), AigerFault>
        ensures made { OnOk result ((rest : List ℕ) → apart self.now port names.old (literal ∷ rest) ≡ apart self.now (port + 1) names.new rest) }
        ensures grows { OnOk result ((names.new ≡ names.old) ⊎ (names.new ≡ names.old ++ port_name self.now port ∷ [])) }
        ensures fault { IfErr result (λ e. (e ≡ AigerFault.OutOfMemory) ⊎ ((rest : List ℕ) → apart self.now port names.old (literal ∷ rest) ≡ Err e)) }
    {
        if self.own(port as u64, literal)?.is_some() {
            return Ok(());
        }
        let name = self.port_name(port as u64)?;
        if names.add(&name)? {
            Ok(())
        } else {
            Err(name_twice(port))
        }
    }

    // The same of one of the ports. One whose name no other has is passed over.
    fn check_port(
        &self,
        shared: &PortSet,
        names: &mut NameSet,
        ports: &[u32],
        port: usize,
    ) -> Result<(), AigerFault>
        requires shared { AreNoted self.now shared.now (length self.now.symbols) }
        requires place { port < length ports.now }
        requires few { length ports.now < 2 ^ 63 }
        requires none { HasNoneAlone self.now port names.old }
        ensures made { OnOk result (apart self.now port names.old (drop port ports.now) ≡ apart self.now (port + 1) names.new (drop (port + 1) ports.now)) }
        ensures none { OnOk result (HasNoneAlone self.now (port + 1) names.new) }
        ensures fault { IfErr result (λ e. (e ≡ AigerFault.OutOfMemory) ⊎ (apart self.now port names.old (drop port ports.now) ≡ Err e)) }
    {
        if shared.lacks(port as u64) {
            return Ok(());
        }
        self.check_name(names, port, ports[port])?;
        Ok(())
    }
}

// Refuses the first port whose name an earlier one has.
fn check_ports(
    reader: &Reader,
    shared: &PortSet,
    names: &mut NameSet,
    ports: &[u32],
) -> Result<(), AigerFault>
    requires shared { AreNoted reader.now shared.now (length reader.now.symbols) }
    requires few { length ports.now < 2 ^ 63 }
    requires none { HasNoneAlone reader.now 0 names.old }
    ensures made { OnOk result (apart reader.now 0 names.old ports.now ≡ Ok tt) }
    ensures fault { IfErr result (λ e. (e ≡ AigerFault.OutOfMemory) ⊎ (apart reader.now 0 names.old ports.now ≡ Err e)) }
{
    for port in 0..ports.len() {
        reader.check_port(shared, names, ports, port)?;
    }
    Ok(())
}

impl Reader {
    /// Refuses the first line that uses a variable without a definition. What is used twice in a row is looked up once.
    pub(crate) fn check_known(&self) -> Result<(), AigerFault>
        ensures { result ≡ known self.now.defined self.now.uses }
    {
        let mut last = 0;
        for one in self.uses() {
            if !self.is_known_after(last, one.literal) {
                return Err(AigerFault::Undefined { line: one.line });
            }
            last = one.literal;
        }
        Ok(())
    }

    /// Refuses the first input, latch or output with the name of an earlier one; an output that is one of them is passed over.
    /// Where none is given a name, all are different; else those are compared whose names another one may have.
    pub(crate) fn check_names(&self, key: u64) -> Result<(), AigerFault>
        ensures made { OnOk result (apart self.now 0 [] self.now.ports ≡ Ok tt) }
        ensures fault { IfErr result (λ e. (e ≡ AigerFault.OutOfMemory) ⊎ (apart self.now 0 [] self.now.ports ≡ Err e)) }
    {
        let ports = self.ports();
        if self.symbols() == 0 {
            return Ok(());
        }
        let shared = self.shared_ports(key)?;
        let mut names = NameSet::new(self.alloc, key);
        check_ports(self, &shared, &mut names, ports)
    }
}
