//! The walk through instances.
ghost use Rattle.std.specs.Prelude.{◌≡◌, ℕ, ◌<◌, ◌+◌, ◌^◌, ◌++◌, ◌∷◌, Ok, Some, None, All, IsTrue, IfOk, IfErr, IfSome, IfNone, OnOk, codes, length, map, string_bytes};
ghost use Rattle.std.specs.Fmt.{decimal};
ghost use Rattle.std.specs.List.{list_all};
ghost use Rattle.net_blif.specs.Connection.{actual_of, is_connection};
ghost use Rattle.net_blif.specs.Design.{items_of, model_named};
ghost use Rattle.net_blif.specs.Item.{IsSoundItem};
ghost use Rattle.net_blif.specs.Statement.{IsToken};
ghost use Rattle.net_blif.specs.Table.{no_numbers};
ghost use Rattle.net_flat.specs.Steps.{Enter, actual_steps};
ghost use Rattle.net_flat.specs.Walk.{next_number};
ghost use Rattle.net_flat.specs.private.KnownNumbers.{known_in};
ghost use Rattle.net_flat.specs.private.LocalScope.{local_in};
ghost use Rattle.net_flat.specs.private.Lines.{AreLinesIn};
ghost use Rattle.net_flat.specs.private.LocalWalk.{AreInside, IsFaultOf, entered, local_instance, local_line, local_walked, local_within, number_in, numbers_of as numbers_of_actuals, prefix_in};
ghost use Rattle.net_flat.specs.private.WalkerState.{state_of};
ghost use Rattle.net_flat.specs.private.Entering.{HasEntered, HasMentioned};

use crate::known_names::KnownNames;
use crate::scope::Scope;
use crate::stop::Stop;
use crate::walker::Walker;
use net_blif::{Design, Item, ItemList, TokenSlice, sides, text_of};
use std::alloc::AllocError;
use std::mem;

// How many instances were met, with those of this line.
fn met_with(met: u64, item: &Item<'_>) -> u64
    requires { met + 1 < 2 ^ 64 }
    ensures { result + 1 ≡ next_number (met + 1) item.now }
{
    match item {
        Item::Instance { .. } => met + 1,
        _ => met,
    }
}

impl<'a> Walker<'a> {
    // The names of a model with the numbers of an instance's formals, from the list of the numbers of its actuals.
    fn formals(
        &self,
        names: KnownNames,
        connections: &TokenSlice<'_>,
    ) -> Result<KnownNames, AllocError>
        requires names { known_in names ≡ no_numbers }
        requires connections { All IsToken connections.now }
        requires numbers { self.now.inputs.items ≡ map (number_in (state_of self.now)) (map actual_of connections.now) }
        ensures { IfOk result (λ known. known_in known ≡ numbers_of_actuals (state_of self.now) connections.now) }
    {
        let mut known = names;
        for place in (0..connections.len()).rev() {
            let (formal, _) = sides(connections.get(place));
            known.connect(formal, self.inputs[place])?;
        }
        Ok(known)
    }

    // The prefix of the names in the instance of this number.
    fn inner_prefix(&self, number: u64) -> Result<String, AllocError>
        ensures { IfOk result (λ text. string_bytes text ≡ prefix_in (state_of self.now).local ++ (decimal number ++ codes "/")) }
    {
        let alloc = self.alloc;
        if self.scope.is_top {
            return Ok(format!(in alloc; "{number}/")?);
        }
        let prefix = self.scope.prefix.as_str();
        Ok(format!(in alloc; "{prefix}{number}/")?)
    }

    // The scope in the instance of this number.
    fn inner(
        &self,
        number: u64,
        names: KnownNames,
        connections: &TokenSlice<'_>,
    ) -> Result<Scope, AllocError>
        requires names { known_in names ≡ no_numbers }
        requires connections { All IsToken connections.now }
        requires numbers { self.now.inputs.items ≡ map (number_in (state_of self.now)) (map actual_of connections.now) }
        ensures { IfOk result (λ scope. local_in scope ≡ (entered (state_of self.now) number connections.now).local) }
    {
        let numbers = self.formals(names, connections)?;
        let prefix = self.inner_prefix(number)?;
        Ok(Scope {
            is_top: false,
            prefix,
            numbers,
        })
    }

    // Mentions what is connected to an instance, and goes into it, if its model is there: gives the scope to come back to.
    fn enter(
        &mut self,
        design: &'a Design,
        number: u64,
        name: &[u8],
        connections: &TokenSlice<'a>,
    ) -> Result<Option<(u32, Scope)>, Stop>
        requires name { IsToken name.now }
        requires connections { All IsToken connections.now }
        requires sides { IsTrue (list_all is_connection connections.now) }
        requires inside { AreInside (state_of self.old) }
        ensures none { IfOk result (λ r. IfNone r ((model_named design.now name.now ≡ None) × HasMentioned (state_of self.old) connections.now (state_of self.new))) }
        ensures some { IfOk result (λ r. IfSome r (λ e. (model_named design.now name.now ≡ Some e.0) × HasEntered (state_of self.old) number connections.now e.1 (state_of self.new))) }
        ensures inside { OnOk result (AreInside (state_of self.new)) }
        ensures fault { IfErr result (IsFaultOf (local_walked (state_of self.old) (Enter ∷ actual_steps connections.now))) }
    {
        self.place_instance(connections)?;
        let Some(model) = design.model(text_of(name)) else {
            return Ok(None);
        };
        let names = self.kept.names_of(self.alloc, self.key, model)?;
        let inner = self.inner(number, names, connections)?;
        let outer = mem::replace(&mut self.scope, inner);
        Ok(Some((model, outer)))
    }

    // Goes into an instance, and walks the body of its model.
    #[cycle(walk)]
    fn instance(
        &mut self,
        design: &'a Design,
        number: u64,
        name: &[u8],
        connections: &TokenSlice<'a>,
        depth: u32,
    ) -> Result<(), Stop>
        requires name { IsToken name.now }
        requires connections { All IsToken connections.now }
        requires sides { IsTrue (list_all is_connection connections.now) }
        requires inside { AreInside (state_of self.old) }
        ensures made { (line : ℕ) → OnOk result (local_instance depth design.now (state_of self.old) number name.now connections.now line ≡ Ok (state_of self.new)) }
        ensures inside { OnOk result (AreInside (state_of self.new)) }
        ensures fault { (line : ℕ) → IfErr result (IsFaultOf (local_instance depth design.now (state_of self.old) number name.now connections.now line)) }
    {
        let Some((inside, outer)) = self.enter(design, number, name, connections)? else {
            return Ok(());
        };
        self.walk(design, inside, depth)?;
        let none = KnownNames::new(self.alloc, self.key);
        let names = mem::replace(&mut self.scope.numbers, none);
        self.scope = outer;
        self.kept.keep(inside, names);
        Ok(())
    }

    // Walks a line, and the body of its instance.
    #[cycle(walk)]
    fn line(
        &mut self,
        design: &'a Design,
        number: u64,
        item: &Item<'a>,
        depth: u32,
    ) -> Result<(), Stop>
        requires sound { IsSoundItem item.now }
        requires inside { AreInside (state_of self.old) }
        ensures made { OnOk result (local_line (local_within depth design.now) design.now (state_of self.old) number item.now ≡ Ok (state_of self.new)) }
        ensures inside { OnOk result (AreInside (state_of self.new)) }
        ensures fault { IfErr result (IsFaultOf (local_line (local_within depth design.now) design.now (state_of self.old) number item.now)) }
    {
        let Item::Instance {
            model,
            connections,
            ..
        } = item
        else {
            return self.place(item);
        };
        self.instance(design, number, model.bytes(), connections, depth)
    }

    // The lines that the walk over a model goes through: in an instance its body.
    fn lines_of(&self, design: &'a Design, model: u32) -> &'a ItemList
        requires { model < length design.now }
        ensures { AreLinesIn (state_of self.now).local (items_of design.now model) result.now }
    {
        if self.scope.is_top {
            design.items(model)
        } else {
            design.body(model)
        }
    }

    /// Walks the lines of a model, through at most so many models one inside another.
    #[cycle(walk)]
    pub fn walk(&mut self, design: &'a Design, model: u32, depth: u32) -> Result<(), Stop>
        requires { AreInside (state_of self.old) }
        ensures made { OnOk result (local_within depth design.now (state_of self.old) model ≡ Ok (state_of self.new)) }
        ensures inside { OnOk result (AreInside (state_of self.new)) }
        ensures fault { IfErr result (IsFaultOf (local_within depth design.now (state_of self.old) model)) }
    {
        if depth == 0 || model >= design.models() {
            return Ok(());
        }
        let lines = self.lines_of(design, model);
        let mut met = 0u64;
        for place in 0..lines.len() {
            let item = lines.get(place);
            self.line(design, met + 1, &item, depth - 1)?;
            met = met_with(met, &item);
        }
        Ok(())
    }
}
