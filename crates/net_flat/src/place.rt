//! What lines place: ports, gates, latches, and what is connected to instances.
ghost use Rattle.std.specs.Prelude.{◌≡◌, ◌<◌, ◌≤◌, ◌^◌, ◌∷◌, Ok, Err, Some, All, IsTrue, IfOk, IfErr, OnOk, flat_map, map, length};
ghost use Rattle.std.specs.List.{list_all};
ghost use Rattle.net_blif.specs.Connection.{actual_of, is_connection};
ghost use Rattle.net_blif.specs.Statement.{IsToken};
ghost use Rattle.net_blif.specs.Item.{IsSoundItem};
ghost use Rattle.net_flat.specs.Steps.{Enter, Mention, actual_steps, gate_steps, input_steps, latch_steps, output_steps, steps_of};
ghost use Rattle.net_flat.specs.private.LocalWalk.{AreInside, HasEach, IsFaultOf, found, is_in_top, local_step, local_walked, number_in};
ghost use Rattle.net_flat.specs.private.WalkerState.{state_of};

use crate::stop::{Cause, Stop};
use crate::walker::Walker;
use net_blif::{Item, TokenSlice, sides};
use net_core::Start;

const MAX_INSTANCES: u32 = 1 << 20;

impl<'a> Walker<'a> {
    // Mentions a name, and makes its net a primary input in the chosen model.
    fn place_input(&mut self, name: &'a [u8]) -> Result<(), Stop>
        requires name { IsToken name.now }
        requires inside { AreInside (state_of self.old) }
        ensures made { OnOk result (local_walked (state_of self.old) (input_steps (is_in_top (state_of self.old).local) name.now) ≡ Ok (state_of self.new)) }
        ensures top { is_in_top (state_of self.new).local ≡ is_in_top (state_of self.old).local }
        ensures inside { OnOk result (AreInside (state_of self.new)) }
        ensures fault { IfErr result (IsFaultOf (local_walked (state_of self.old) (input_steps (is_in_top (state_of self.old).local) name.now))) }
    {
        let is_top = self.scope.is_top;
        let number = self.mention(name)?;
        if !is_top {
            return Ok(());
        }
        self.maker.input(number)?;
        Ok(())
    }

    // Mentions a name, and makes its net an output in the chosen model.
    fn place_output(&mut self, name: &'a [u8]) -> Result<(), Stop>
        requires name { IsToken name.now }
        requires inside { AreInside (state_of self.old) }
        ensures made { OnOk result (local_walked (state_of self.old) (output_steps (is_in_top (state_of self.old).local) name.now) ≡ Ok (state_of self.new)) }
        ensures top { is_in_top (state_of self.new).local ≡ is_in_top (state_of self.old).local }
        ensures inside { OnOk result (AreInside (state_of self.new)) }
        ensures fault { IfErr result (IsFaultOf (local_walked (state_of self.old) (output_steps (is_in_top (state_of self.old).local) name.now))) }
    {
        let is_top = self.scope.is_top;
        let number = self.mention(name)?;
        if !is_top {
            return Ok(());
        }
        self.maker.output(number)?;
        Ok(())
    }

    fn place_inputs(&mut self, names: &TokenSlice<'a>) -> Result<(), Stop>
        requires names { All IsToken names.now }
        requires inside { AreInside (state_of self.old) }
        ensures made { OnOk result (local_walked (state_of self.old) (flat_map (input_steps (is_in_top (state_of self.old).local)) names.now) ≡ Ok (state_of self.new)) }
        ensures inside { OnOk result (AreInside (state_of self.new)) }
        ensures fault { IfErr result (IsFaultOf (local_walked (state_of self.old) (flat_map (input_steps (is_in_top (state_of self.old).local)) names.now))) }
    {
        for place in 0..names.len() {
            self.place_input(names.get(place))?;
        }
        Ok(())
    }

    fn place_outputs(&mut self, names: &TokenSlice<'a>) -> Result<(), Stop>
        requires names { All IsToken names.now }
        requires inside { AreInside (state_of self.old) }
        ensures made { OnOk result (local_walked (state_of self.old) (flat_map (output_steps (is_in_top (state_of self.old).local)) names.now) ≡ Ok (state_of self.new)) }
        ensures inside { OnOk result (AreInside (state_of self.new)) }
        ensures fault { IfErr result (IsFaultOf (local_walked (state_of self.old) (flat_map (output_steps (is_in_top (state_of self.old).local)) names.now))) }
    {
        for place in 0..names.len() {
            self.place_output(names.get(place))?;
        }
        Ok(())
    }

    // Mentions names, whose numbers are then the list.
    fn mention_all(&mut self, names: &TokenSlice<'a>) -> Result<(), Stop>
        requires names { All IsToken names.now }
        requires inside { AreInside (state_of self.old) }
        ensures numbers { OnOk result (self.new.inputs.items ≡ map (number_in (state_of self.new)) names.now) }
        ensures found { OnOk result (HasEach (state_of self.new) names.now) }
        ensures made { OnOk result (local_walked (state_of self.old) (map Mention names.now) ≡ Ok (state_of self.new)) }
        ensures inside { OnOk result (AreInside (state_of self.new)) }
        ensures fault { IfErr result (IsFaultOf (local_walked (state_of self.old) (map Mention names.now))) }
    {
        self.inputs.clear();
        for place in 0..names.len() {
            let number = self.mention(names.get(place))?;
            self.inputs.push(number)?;
        }
        Ok(())
    }

    // Adds a gate on the nets of names.
    fn place_gate(&mut self, inputs: &TokenSlice<'a>, out: &'a [u8], table: u64) -> Result<(), Stop>
        requires inputs { All IsToken inputs.now }
        requires few { length inputs.now ≤ 6 }
        requires out { IsToken out.now }
        requires table { table < 2 ^ (2 ^ length inputs.now) }
        requires inside { AreInside (state_of self.old) }
        ensures made { OnOk result (local_walked (state_of self.old) (gate_steps inputs.now out.now table) ≡ Ok (state_of self.new)) }
        ensures inside { OnOk result (AreInside (state_of self.new)) }
        ensures fault { IfErr result (IsFaultOf (local_walked (state_of self.old) (gate_steps inputs.now out.now table))) }
    {
        self.mention_all(inputs)?;
        let number = self.mention(out)?;
        self.maker.gate(number, self.inputs.as_slice(), table)
    }

    // Adds a latch on the nets of names.
    fn place_latch(&mut self, next: &'a [u8], out: &'a [u8], start: Start) -> Result<(), Stop>
        requires next { IsToken next.now }
        requires out { IsToken out.now }
        requires inside { AreInside (state_of self.old) }
        ensures made { OnOk result (local_walked (state_of self.old) (latch_steps next.now out.now start) ≡ Ok (state_of self.new)) }
        ensures inside { OnOk result (AreInside (state_of self.new)) }
        ensures fault { IfErr result (IsFaultOf (local_walked (state_of self.old) (latch_steps next.now out.now start))) }
    {
        let read = self.mention(next)?;
        let driven = self.mention(out)?;
        self.maker.latch(read, driven, start)
    }

    // Goes into an instance, if there may be one more.
    fn begin_instance(&mut self) -> Result<(), Stop>
        requires { AreInside (state_of self.old) }
        ensures made { OnOk result (local_step (state_of self.old) Enter ≡ Ok (state_of self.new)) }
        ensures inside { OnOk result (AreInside (state_of self.new)) }
        ensures fault { IfErr result (IsFaultOf (local_step (state_of self.old) Enter)) }
        ensures told { IfErr result (λ fault. local_step (state_of self.old) Enter ≡ Err fault) }
    {
        if self.instances >= MAX_INSTANCES {
            return Err(Stop {
                cause: Cause::TooManyInstances,
            });
        }
        self.instances += 1;
        Ok(())
    }

    // Mentions the actual of a connection.
    fn place_actual(&mut self, connection: &'a [u8]) -> Result<u32, Stop>
        requires connection { IsToken connection.now }
        requires sides { IsTrue (is_connection connection.now) }
        requires inside { AreInside (state_of self.old) }
        ensures number { IfOk result (λ n. found (state_of self.new) (actual_of connection.now) ≡ Some n) }
        ensures kept { self.new.inputs.items ≡ self.old.inputs.items }
        ensures made { OnOk result (local_step (state_of self.old) (Mention (actual_of connection.now)) ≡ Ok (state_of self.new)) }
        ensures inside { OnOk result (AreInside (state_of self.new)) }
        ensures fault { IfErr result (IsFaultOf (local_step (state_of self.old) (Mention (actual_of connection.now)))) }
    {
        let (_, actual) = sides(connection);
        self.mention(actual)
    }

    // Mentions the actuals of connections, whose numbers are then the list.
    fn place_actuals(&mut self, connections: &TokenSlice<'a>) -> Result<(), Stop>
        requires connections { All IsToken connections.now }
        requires sides { IsTrue (list_all is_connection connections.now) }
        requires inside { AreInside (state_of self.old) }
        ensures numbers { OnOk result (self.new.inputs.items ≡ map (number_in (state_of self.new)) (map actual_of connections.now)) }
        ensures found { OnOk result (HasEach (state_of self.new) (map actual_of connections.now)) }
        ensures made { OnOk result (local_walked (state_of self.old) (actual_steps connections.now) ≡ Ok (state_of self.new)) }
        ensures inside { OnOk result (AreInside (state_of self.new)) }
        ensures fault { IfErr result (IsFaultOf (local_walked (state_of self.old) (actual_steps connections.now))) }
    {
        self.inputs.clear();
        for place in 0..connections.len() {
            let number = self.place_actual(connections.get(place))?;
            self.inputs.push(number)?;
        }
        Ok(())
    }

    /// Goes into an instance and mentions what is connected, whose numbers are then the list.
    pub fn place_instance(&mut self, connections: &TokenSlice<'a>) -> Result<(), Stop>
        requires connections { All IsToken connections.now }
        requires sides { IsTrue (list_all is_connection connections.now) }
        requires inside { AreInside (state_of self.old) }
        ensures numbers { OnOk result (self.new.inputs.items ≡ map (number_in (state_of self.new)) (map actual_of connections.now)) }
        ensures found { OnOk result (HasEach (state_of self.new) (map actual_of connections.now)) }
        ensures made { OnOk result (local_walked (state_of self.old) (Enter ∷ actual_steps connections.now) ≡ Ok (state_of self.new)) }
        ensures inside { OnOk result (AreInside (state_of self.new)) }
        ensures fault { IfErr result (IsFaultOf (local_walked (state_of self.old) (Enter ∷ actual_steps connections.now))) }
    {
        self.begin_instance()?;
        self.place_actuals(connections)
    }

    /// Places what a line says; the body of an instance is left.
    pub fn place(&mut self, item: &Item<'a>) -> Result<(), Stop>
        requires sound { IsSoundItem item.now }
        requires inside { AreInside (state_of self.old) }
        ensures made { OnOk result (local_walked (state_of self.old) (steps_of (is_in_top (state_of self.old).local) item.now) ≡ Ok (state_of self.new)) }
        ensures inside { OnOk result (AreInside (state_of self.new)) }
        ensures fault { IfErr result (IsFaultOf (local_walked (state_of self.old) (steps_of (is_in_top (state_of self.old).local) item.now))) }
    {
        match item {
            Item::Inputs(names) => self.place_inputs(names),
            Item::Outputs(names) => self.place_outputs(names),
            Item::Gate {
                inputs,
                out,
                table,
                ..
            } => self.place_gate(inputs, out.bytes(), *table),
            Item::Latch {
                next,
                out,
                start,
                ..
            } => self.place_latch(next.bytes(), out.bytes(), *start),
            Item::Instance { connections, .. } => self.place_instance(connections),
        }
    }
}
