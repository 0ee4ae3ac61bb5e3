//! Names of nets.
ghost use Rattle.std.specs.Prelude.{◌≡◌, ◌<◌, ◌++◌, ◌∷◌, [], IfOk, OnOk, Some, length, map, slice_get, string_bytes};
ghost use Rattle.compose_wiring.specs.private.Keys.{spaced};
ghost use Rattle.compose_wiring.specs.private.Names.{same_names};

use net_core::Name;
use std::alloc::{AllocError, Global};
use std::marker::Model;

/// Names of nets in a text, one after another. Contracts see the list of them.
#[derive(Drop)]
pub(crate) struct Nets<'a> {
    list: Vec<&'a str>,
}

impl<'a> Model for Nets<'a> {
    ghost use Rattle.std.specs.Prelude.{List, ℕ, map};

    ghost Value = { List (List ℕ) };

    ghost view = { λ nets. map (λ name. name.now) nets.list.items };
}

/// The name of a place.
pub(crate) fn net_at(names: &[Name], place: usize) -> &str
    requires { place < length names.now }
    ensures { slice_get names.now place ≡ Some result.now }
{
    names[place].as_str()
}

impl<'a> Nets<'a> {
    /// No names. It takes no memory.
    pub fn new(alloc: Global) -> Nets<'a>
        ensures { result ≡ [] }
    {
        Nets {
            list: Vec::new(alloc),
        }
    }

    /// These names.
    pub fn of(alloc: Global, names: &'a [Name]) -> Result<Nets<'a>, AllocError>
        ensures { IfOk result (λ nets. nets ≡ names.now) }
    {
        let mut nets = Nets::new(alloc);
        for place in 0..names.len() {
            nets.push(net_at(names, place))?;
        }
        Ok(nets)
    }

    /// One more name at the end.
    pub fn push(&mut self, name: &'a str) -> Result<(), AllocError>
        ensures { OnOk result (self.new ≡ self.old ++ name.now ∷ []) }
    {
        self.list.push(name)?;
        Ok(())
    }

    /// A copy of the names.
    pub fn copy(&self, alloc: Global) -> Result<Nets<'a>, AllocError>
        ensures { IfOk result (λ nets. nets ≡ self.now) }
    {
        let nets = copied(alloc, &self.list)?;
        Ok(nets)
    }

    /// Adds the names to a text, a space behind each.
    pub fn add_to(&self, text: &mut String) -> Result<(), AllocError>
        ensures { OnOk result (string_bytes text.new ≡ string_bytes text.old ++ spaced self.now) }
    {
        add_names(text, &self.list)?;
        Ok(())
    }

    /// Whether these are the same names, place by place.
    pub fn is(&self, other: &Nets<'_>) -> bool
        ensures { result ≡ same_names self.now other.now }
    {
        are_same(&self.list, &other.list)
    }
}

// The name of a place.
fn name_at<'a>(names: &[&'a str], place: usize) -> &'a str
    requires { place < length names.now }
    ensures { slice_get (map (λ name. name.now) names.now) place ≡ Some result.now }
{
    names[place]
}

// These names.
fn copied<'a>(alloc: Global, names: &[&'a str]) -> Result<Nets<'a>, AllocError>
    ensures { IfOk result (λ nets. nets ≡ map (λ name. name.now) names.now) }
{
    let mut nets = Nets::new(alloc);
    for place in 0..names.len() {
        nets.push(name_at(names, place))?;
    }
    Ok(nets)
}

// Adds a name and a space to a text.
fn add_name(text: &mut String, name: &str) -> Result<(), AllocError>
    ensures { OnOk result (string_bytes text.new ≡ string_bytes text.old ++ (name.now ++ 32 ∷ [])) }
{
    text.push_str(name)?;
    text.push(' ')?;
    Ok(())
}

// Adds names to a text, a space behind each.
fn add_names(text: &mut String, names: &[&str]) -> Result<(), AllocError>
    ensures { OnOk result (string_bytes text.new ≡ string_bytes text.old ++ spaced (map (λ name. name.now) names.now)) }
{
    for place in 0..names.len() {
        add_name(text, name_at(names, place))?;
    }
    Ok(())
}

// Whether names are the same, place by place.
fn are_same(a: &[&str], b: &[&str]) -> bool
    ensures { result ≡ same_names (map (λ name. name.now) a.now) (map (λ name. name.now) b.now) }
{
    if a.len() != b.len() {
        return false;
    }
    for place in 0..a.len() {
        if name_at(a, place) != name_at(b, place) {
            return false;
        }
    }
    true
}
