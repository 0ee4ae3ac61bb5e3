//! The walk over the lines of models.
ghost use Rattle.std.specs.Prelude.{◌≡◌, ◌++◌, ℕ, Ok, Some, None, IfOk, IfErr, OnOk, false, string_bytes};
ghost use Rattle.text_core.specs.Lines.{IsPrinting};
ghost use Rattle.net_core.specs.Inside.{IsFull};
ghost use Rattle.net_core.specs.NetList.{empty, nets, with_label};
ghost use Rattle.net_blif.specs.Statement.{IsToken};
ghost use Rattle.net_flat.specs.Steps.{Mention};
ghost use Rattle.net_flat.specs.private.KnownNumbers.{known_in, HasPlace};
ghost use Rattle.net_flat.specs.private.LocalWalk.{AreInside, InTop, Inside, IsFaultOf, found, local_step, state_with};
ghost use Rattle.net_flat.specs.private.Stopping.{IsFaultOfNet};
ghost use Rattle.net_flat.specs.private.WalkerState.{state_of};

use crate::kept::Kept;
use crate::known_names::KnownNames;
use crate::namer::Namer;
use crate::scope::Scope;
use crate::stop::Stop;
use net_blif::text_of;
use net_core::NetMaker;
use std::alloc::Global;

/// A walk on its way: the net list so far, how many instances were entered, and what is known of names.
/// The numbers of a gate's inputs stand in a list that is used again. What is known of the names of a model is kept for the
/// next walk over it.
#[derive(Drop)]
pub struct Walker<'a> {
    pub alloc: Global,
    pub key: u64,
    pub maker: Namer<'a>,
    pub instances: u32,
    pub scope: Scope,
    pub inputs: Vec<u32>,
    pub kept: Kept,
}

// The number of a new net that no name finds. It is called by the prefix and the name, which stands behind it for a while.
fn fresh_behind(maker: &mut Namer<'_>, prefix: &mut String, name: &[u8]) -> Result<u32, Stop>
    requires { IsPrinting name.now }
    ensures prefix { string_bytes prefix.new ≡ string_bytes prefix.old }
    ensures number { IfOk result (λ n. n ≡ nets maker.old) }
    ensures made { OnOk result (maker.new ≡ with_label maker.old (string_bytes prefix.old ++ name.now) false) }
    ensures room { OnOk result (IsFull maker.old → ⊥) }
    ensures fault { IfErr result (IsFaultOfNet maker.old) }
{
    let size = prefix.len();
    prefix.push_str(text_of(name))?;
    let made = maker.fresh(prefix.as_str());
    prefix.truncate(size);
    made
}

// The number of the net of a new name in an instance with this prefix, which is made.
fn add_inside(
    maker: &mut Namer<'_>,
    prefix: &mut String,
    numbers: &mut KnownNames,
    name: &[u8],
) -> Result<u32, Stop>
    requires name { IsToken name.now }
    requires place { HasPlace numbers.old name.now }
    requires new { known_in numbers.old name.now ≡ None }
    ensures prefix { string_bytes prefix.new ≡ string_bytes prefix.old }
    ensures number { IfOk result (λ n. known_in numbers.new name.now ≡ Some n) }
    ensures made { (i : ℕ) → OnOk result (local_step (state_with maker.old i (Inside (string_bytes prefix.old) (known_in numbers.old))) (Mention name.now) ≡ Ok (state_with maker.new i (Inside (string_bytes prefix.old) (known_in numbers.new)))) }
    ensures fault { (i : ℕ) → IfErr result (IsFaultOf (local_step (state_with maker.old i (Inside (string_bytes prefix.old) (known_in numbers.old))) (Mention name.now))) }
{
    let number = match fresh_behind(maker, prefix, name) {
        Ok(number) => number,
        Err(stop) => return Err(stop),
    };
    numbers.insert(name, number)?;
    Ok(number)
}

// The number of the net of a name in an instance with this prefix, which is made if it is new.
fn mention_inside(
    maker: &mut Namer<'_>,
    prefix: &mut String,
    numbers: &mut KnownNames,
    name: &[u8],
) -> Result<u32, Stop>
    requires { IsToken name.now }
    ensures prefix { string_bytes prefix.new ≡ string_bytes prefix.old }
    ensures number { IfOk result (λ n. known_in numbers.new name.now ≡ Some n) }
    ensures made { (i : ℕ) → OnOk result (local_step (state_with maker.old i (Inside (string_bytes prefix.old) (known_in numbers.old))) (Mention name.now) ≡ Ok (state_with maker.new i (Inside (string_bytes prefix.old) (known_in numbers.new)))) }
    ensures fault { (i : ℕ) → IfErr result (IsFaultOf (local_step (state_with maker.old i (Inside (string_bytes prefix.old) (known_in numbers.old))) (Mention name.now))) }
{
    match numbers.get(name) {
        Some(number) => Ok(number),
        None => add_inside(maker, prefix, numbers, name),
    }
}

impl<'a> Walker<'a> {
    /// Before the first line of the chosen model. Names are hashed with this key. It takes no memory.
    pub fn new(alloc: Global, key: u64) -> Walker<'a>
        ensures { state_of result ≡ state_with empty 0 InTop }
    {
        Walker {
            alloc,
            key,
            maker: Namer::keyed(alloc, key),
            instances: 0,
            scope: Scope {
                is_top: true,
                prefix: String::new(alloc),
                numbers: KnownNames::new(alloc, key),
            },
            inputs: Vec::new(alloc),
            kept: Kept::new(alloc),
        }
    }

    /// The net list.
    pub fn into_maker(self) -> NetMaker
        ensures { result ≡ (state_of self.entry).net }
    {
        self.maker.into_maker()
    }

    /// The number of the net of a name, which is made if it is new.
    pub fn mention(&mut self, name: &'a [u8]) -> Result<u32, Stop>
        requires name { IsToken name.now }
        requires inside { AreInside (state_of self.old) }
        ensures number { IfOk result (λ n. found (state_of self.new) name.now ≡ Some n) }
        ensures made { OnOk result (local_step (state_of self.old) (Mention name.now) ≡ Ok (state_of self.new)) }
        ensures inside { OnOk result (AreInside (state_of self.new)) }
        ensures top { self.new.scope.is_top ≡ self.old.scope.is_top }
        ensures kept { self.new.inputs.items ≡ self.old.inputs.items }
        ensures fault { IfErr result (IsFaultOf (local_step (state_of self.old) (Mention name.now))) }
    {
        if self.scope.is_top {
            self.maker.mention(name)
        } else {
            mention_inside(
                &mut self.maker,
                &mut self.scope.prefix,
                &mut self.scope.numbers,
                name,
            )
        }
    }
}
