//! Names and lists in the fields of public types.
ghost use Rattle.std.specs.Prelude.{◌≡◌, IfOk};

use std::alloc::{AllocError, Global};
use std::marker::Model;

/// A name. Contracts see its bytes.
#[derive(Debug, Drop)]
pub struct Name {
    text: String,
}

impl Model for Name {
    ghost use Rattle.std.specs.Prelude.{List, ℕ, string_bytes};

    ghost Value = { List ℕ };

    ghost view = { λ name. string_bytes name.text };
}

impl Name {
    /// A name of this text. It answers nothing but the name, or runs out of memory.
    pub fn new(alloc: Global, text: &str) -> Result<Name, AllocError>
        ensures { IfOk result (λ name. name ≡ text.now) }
    {
        Ok(Name {
            text: String::from_str(alloc, text)?,
        })
    }

    /// The text of the name.
    pub fn as_str(&self) -> &str
        ensures { result.now ≡ self.now }
    {
        self.text.as_str()
    }
}

/// A list of names. Contracts see the list of their bytes.
#[derive(Drop)]
pub struct Names {
    list: Vec<Name>,
}

impl Model for Names {
    ghost use Rattle.std.specs.Prelude.{List, ℕ};

    ghost Value = { List (List ℕ) };

    ghost view = { λ names. names.list.items };
}

impl Names {
    /// The names of the list.
    pub fn new(list: Vec<Name>) -> Names
        ensures { result ≡ list.items }
    {
        Names { list }
    }

    /// The names, in order.
    pub fn as_slice(&self) -> &[Name]
        ensures { result.now ≡ self.now }
    {
        self.list.as_slice()
    }
}

/// A list of numbers. Contracts see the list.
#[derive(Debug, Drop)]
pub struct Numbers<T> {
    list: Vec<T>,
}

impl<T> Model for Numbers<T> {
    ghost use Rattle.std.specs.Prelude.{List};

    ghost Value = { List T };

    ghost view = { λ numbers. numbers.list.items };
}

impl<T> Numbers<T> {
    /// The numbers of the list.
    pub fn new(list: Vec<T>) -> Numbers<T>
        ensures { result ≡ list.items }
    {
        Numbers { list }
    }

    /// The numbers, in order.
    pub fn as_slice(&self) -> &[T]
        ensures { result.now ≡ self.now }
    {
        self.list.as_slice()
    }
}
