//! The last generator, as a sum of monomials and a form: lines with the same generator mostly follow each other.
ghost use Rattle.std.specs.Prelude.{◌≡◌, IsTrue, None, OnOk, Some};
ghost use Rattle.circuit_model.specs.Bases.{AreBases};
ghost use Rattle.cert_check.specs.private.Reading.{AreDrivers};
ghost use Rattle.cert_check.specs.private.Held.{IsLast};
ghost use Rattle.cert_check.specs.private.Kept.{IsGeneratorOf};

use crate::form::Form;
use crate::generator::generator_split;
use crate::mono_sum::MonoSum;
use gf_basis::Basis;
use gf_field::Field;
use net_words::Combinational;
use poly_mixed::Generator;
use std::alloc::{AllocError, Global};

// A generator with its monomials and its form, once they were made.
pub(crate) struct LastGenerator {
    generator: Option<Generator>,
    // Its monomials.
    pub(crate) near: MonoSum,
    // Its form.
    pub(crate) form: Option<Form>,
}

// By hand, so that a caller that lets one go makes one call, and not one for each part.
impl Drop for LastGenerator {
    fn drop(self) {
        let LastGenerator {
            generator: _,
            near,
            form: _,
        } = self;
        drop(near);
    }
}

// Whether two generators are the same.
fn is_same(a: Generator, b: Generator) -> bool
    ensures { IsTrue result → a ≡ b }
{
    match a {
        Generator::Net(m) => match b {
            Generator::Net(n) => m == n,
            Generator::Bit { .. } => false,
        },
        Generator::Bit { word: v, place: i } => match b {
            Generator::Net(_) => false,
            Generator::Bit { word: w, place: j } => v == w && i == j,
        },
    }
}

impl LastGenerator {
    // None was made.
    pub(crate) fn none(alloc: Global) -> LastGenerator
        ensures { result.generator ≡ None }
    {
        LastGenerator {
            generator: None,
            near: MonoSum::zero(alloc),
            form: None,
        }
    }

    // Whether it is this one.
    fn is(&self, generator: Generator) -> bool
        ensures { IsTrue result → self.now.generator ≡ Some generator }
    {
        match self.generator {
            Some(last) => is_same(last, generator),
            None => false,
        }
    }

    // Puts a generator in its place, whose monomials and form are made unless it is the same one.
    pub(crate) fn make<F: Field>(
        &mut self,
        alloc: Global,
        field: &F,
        circuit: &Combinational,
        bases: &[Basis],
        drivers: &[Option<u32>],
        generator: Generator,
    ) -> Result<(), AllocError>
        requires bases { AreBases (F.degree field.now) (F.product field.now) circuit.now bases.now }
        requires drivers { AreDrivers circuit.now.net drivers.now }
        requires generator { IsGeneratorOf (F.degree field.now) circuit.now bases.now generator }
        requires last { IsLast (F.degree field.now) (F.product field.now) circuit.now bases.now self.old }
        ensures generator { OnOk result (self.new.generator ≡ Some generator) }
        ensures last { OnOk result (IsLast (F.degree field.now) (F.product field.now) circuit.now bases.now self.new) }
    {
        if self.is(generator) {
            return Ok(());
        }
        let split = generator_split(alloc, field, circuit, bases, drivers, generator)?;
        self.near = split.near;
        self.form = split.form;
        self.generator = Some(generator);
        Ok(())
    }
}
