//! Declared names, with the indexes in the names of scalars.
ghost use Rattle.std.specs.Prelude.{◌≡◌, ◌≤◌, ℕ, None, Some, OnOk, length};
ghost use Rattle.text_core.specs.Lines.{IsPrinting};
ghost use Rattle.net_verilog.specs.Declarations.{bit_name, declared_as, put as put_that, range_of, undeclared};
ghost use Rattle.verilog_reader.specs.Declares.{Meets};
ghost use Rattle.verilog_reader.specs.private.Listed.{AreApart, IsEach, IsKept, IsListed};

use crate::cuts::{index_at, last_open};
use crate::scalars::Scalars;
use net_verilog::{Declared, Table, text_of};
use std::alloc::{AllocError, Global};
use std::marker::Model;

/// Declared names. Contracts see the names with what they are declared as, in the order of their first declarations.
pub struct Scope {
    alloc: Global,
    key: u64,
    table: Table,
    scalars: Scalars,
}

// By hand, so that a caller that lets one go makes one call, and not one for each part.
impl Drop for Scope {
    fn drop(self) {
        let Scope {
            alloc: _,
            key: _,
            table,
            scalars,
        } = self;
        drop(table);
        drop(scalars);
    }
}

impl Model for Scope {
    ghost use Rattle.net_verilog.specs.Declarations.{Declarations};
    ghost use Rattle.verilog_reader.specs.private.Listed.{AreApart, AreListed};

    ghost Value = { Declarations };

    ghost view = { λ scope. scope.table };

    ghost invariant = { λ scope. AreListed scope.table scope.scalars × AreApart scope.table };
}

// Lists a scalar's index, where its name is that of a bit.
fn list_scalar(scalars: &mut Scalars, name: &str) -> Result<(), AllocError>
    requires { IsPrinting name.now }
    ensures kept { OnOk result (IsKept scalars.old scalars.new) }
    ensures listed { OnOk result (IsListed scalars.new name.now) }
{
    let Some(cut) = last_open(name.as_bytes()) else {
        return Ok(());
    };
    let Some(index) = index_at(name.as_bytes(), cut) else {
        return Ok(());
    };
    scalars.add(text_of(&name.as_bytes()[..cut]), index)?;
    Ok(())
}

// Lists a name that is declared with a range, where it is a scalar's.
fn list_name(scalars: &mut Scalars, range: Option<(u32, u32)>, name: &str) -> Result<(), AllocError>
    requires { IsPrinting name.now }
    ensures kept { OnOk result (IsKept scalars.old scalars.new) }
    ensures listed { OnOk result (range ≡ None → IsListed scalars.new name.now) }
{
    match range {
        None => list_scalar(scalars, name),
        Some(_) => Ok(()),
    }
}

// Declares a name and lists it.
fn enter(
    table: &mut Table,
    scalars: &mut Scalars,
    name: &str,
    declared: Declared,
) -> Result<(), AllocError>
    requires prints { IsPrinting name.now }
    requires short { (low : ℕ) → (high : ℕ) → (i : ℕ) → declared.range ≡ Some (low, high) → low ≤ i → i ≤ high → length (bit_name name.now i) ≤ 255 }
    ensures table { OnOk result (table.new ≡ put_that name.now declared table.old) }
    ensures kept { OnOk result (IsKept scalars.old scalars.new) }
    ensures listed { OnOk result (declared.range ≡ None → IsListed scalars.new name.now) }
{
    list_name(scalars, declared.range, name)?;
    table.put(name, declared)?;
    Ok(())
}

impl Scope {
    /// Nothing is declared. Names are looked up by a hash with this key. It takes no memory.
    pub fn new(alloc: Global, key: u64) -> Scope
        ensures { result ≡ undeclared }
    {
        Scope {
            alloc,
            key,
            table: Table::new(alloc, key),
            scalars: Scalars::new(alloc, key),
        }
    }

    /// The declared names alone.
    pub fn table(&self) -> &Table
        ensures { result.now ≡ self.now }
    {
        &self.table
    }

    /// What a name is declared as.
    pub fn find(&self, name: &str) -> Option<Declared>
        ensures { result ≡ declared_as self.now name.now }
    {
        self.table.find(name)
    }

    /// Indexes, among them those of each bit of a name that is the name of a declared scalar.
    pub fn listed(&self, name: &str) -> &[u32]
        ensures { IsEach self.now name.now result.now }
    {
        self.scalars.of(name)
    }

    /// The range of a declared name. No two declared names make nets of one name.
    pub fn range(&self, name: &str) -> Option<Option<(u32, u32)>>
        ensures same { result ≡ range_of self.now name.now }
        ensures apart { AreApart self.now }
    {
        match self.table.find(name) {
            Some(d) => Some(d.range),
            None => None,
        }
    }

    /// Declares a name in place of what it was declared as before.
    pub fn put(&mut self, name: &str, declared: Declared) -> Result<(), AllocError>
        requires prints { IsPrinting name.now }
        requires short { (low : ℕ) → (high : ℕ) → (i : ℕ) → declared.range ≡ Some (low, high) → low ≤ i → i ≤ high → length (bit_name name.now i) ≤ 255 }
        requires apart { Meets self.old declared.range name.now → ⊥ }
        ensures { OnOk result (self.new ≡ put_that name.now declared self.old) }
    {
        match enter(&mut self.table, &mut self.scalars, name, declared) {
            Ok(()) => Ok(()),
            Err(fault) => {
                self.table = Table::new(self.alloc, self.key);
                self.scalars = Scalars::new(self.alloc, self.key);
                Err(fault)
            }
        }
    }
}
