//! The verdict on the lines of a certificate after its claim.
ghost use Rattle.std.specs.Prelude.{◌≡◌, ◌≤◌, ℕ, length, IfOk, IfErr, IfSome, OnOk};
ghost use Rattle.std.specs.Str.Lines.{lines};
ghost use Rattle.circuit_model.specs.Bases.{AreBases};
ghost use Rattle.cert_check.specs.Labels.{NameWords};
ghost use Rattle.cert_check.specs.Certificate.{Certificate, begun};
ghost use Rattle.cert_check.specs.Verdict.{IsRunningSum};
ghost use Rattle.cert_check.specs.declared.fault.CertFault.TheVariants.{OutOfMemory};
ghost use Rattle.cert_check.specs.declared.line.Line.TheVariants.{Pair};
ghost use Rattle.cert_check.specs.private.Reading.{AreDrivers, IsLine, IsMultiplier};
ghost use Rattle.cert_check.specs.private.Held.{whole, IsHeld, IsLast, IsSettled};
ghost use Rattle.cert_check.specs.private.Kept.{AddsLine, AsksLine, EndsWith, IsGeneratorOf, IsLineOf, IsOver, IsShared, IsVerdictAfter, Keeps, KeepsLine, SaysLine};

use crate::fault::{CertFault, LineFault, at_line};
use crate::last::LastGenerator;
use crate::line::{Line, Multiplier, read_line};
use crate::running::add_multiplier;
use crate::running_sum::RunningSum;
use crate::term_list::TermList;
use crate::term_map::TermMap;
use gf_basis::Basis;
use gf_field::Field;
use net_words::Combinational;
use poly_mixed::{Generator, Labels, Poly};
use std::alloc::Global;
use text_core::next_line;

/// The verdict on a certificate that has no fault.
#[derive(Drop)]
pub enum CertVerdict {
    /// The last running sum is empty: the claim has the output's value at every input.
    Valid(Poly),
    /// So many terms are left of the last running sum.
    Invalid { remaining: u64 },
}

// The claim, the shared multipliers, the running sum and the last generator.
struct Checking {
    claim: Poly,
    shared: Vec<TermList>,
    sum: RunningSum,
    last: LastGenerator,
}

// By hand, so that a caller that lets one go makes one call, and not one for each part.
impl Drop for Checking {
    fn drop(self) {
        let Checking {
            claim,
            shared,
            sum,
            last,
        } = self;
        drop(claim);
        drop(shared);
        drop(sum);
        drop(last);
    }
}

// Refuses a running sum that is settled and has more terms than the bound after the line of this number.
fn check_sum(sum: &RunningSum, k: u32, line: u32, bound: u32) -> Result<(), CertFault>
    requires { IsSettled k bound sum.now }
    ensures within { (mul : ℕ → ℕ → ℕ) (dual : ℕ → ℕ → ℕ) → OnOk result (length (whole k mul dual sum.now) ≤ bound) }
    ensures over { (mul : ℕ → ℕ → ℕ) (dual : ℕ → ℕ → ℕ) → IfErr result (IsOver line bound (length (whole k mul dual sum.now))) }
{
    match sum.over(k, bound) {
        Some(terms) => Err(CertFault::TooManyTerms {
            line,
            terms: terms as u64,
        }),
        None => Ok(()),
    }
}

impl Checking {
    // Adds the product of a pair, and compares the sum with the bound.
    fn add_pair<F: Field>(
        &mut self,
        alloc: Global,
        field: &F,
        circuit: &Combinational,
        bases: &[Basis],
        drivers: &[Option<u32>],
        number: u32,
        bound: u32,
        generator: Generator,
        multiplier: &Multiplier,
    ) -> Result<(), CertFault>
        requires bases { AreBases (F.degree field.now) (F.product field.now) circuit.now bases.now }
        requires drivers { AreDrivers circuit.now.net drivers.now }
        requires kept { (c : Certificate) × Keeps (F.degree field.now) (F.product field.now) circuit.now bases.now bound self.old c }
        requires held { IsHeld circuit.now bases.now (F.degree field.now) self.old.sum }
        requires last { IsLast (F.degree field.now) (F.product field.now) circuit.now bases.now self.old.last }
        requires generator { IsGeneratorOf (F.degree field.now) circuit.now bases.now generator }
        requires multiplier { IsMultiplier (F.degree field.now) (length self.old.shared.items) multiplier.now }
        ensures asks { AsksLine (F.degree field.now) (F.product field.now) circuit.now bases.now bound number result self.old (Pair generator multiplier.now) }
        ensures kept { KeepsLine (F.degree field.now) (F.product field.now) circuit.now bases.now bound result self.old self.new (Pair generator multiplier.now) }
        ensures few { OnOk result (length self.new.shared.items ≤ length self.old.shared.items) }
        ensures held { OnOk result (IsHeld circuit.now bases.now (F.degree field.now) self.new.sum) }
        ensures last { OnOk result (IsLast (F.degree field.now) (F.product field.now) circuit.now bases.now self.new.last) }
    {
        add_multiplier(
            alloc,
            field,
            circuit,
            bases,
            drivers,
            generator,
            multiplier,
            self.shared.as_slice(),
            &mut self.last,
            &mut self.sum,
        )?;
        self.sum.settle(alloc, field, circuit, bases, bound)?;
        check_sum(&self.sum, field.k(), number, bound)
    }

    // Adds a shared multiplier. After running out of memory the state is not used again.
    fn share(&mut self, alloc: Global, poly: &Poly) -> Result<(), CertFault>
        ensures shared { OnOk result (IsShared self.old self.new poly.now.terms) }
        ensures memory { IfErr result (λ fault. fault ≡ OutOfMemory) }
    {
        let list = TermList::of(alloc, poly)?;
        self.shared.push(list)?;
        Ok(())
    }

    // Adds what a line says, and compares the sum with the bound after a pair.
    fn add<F: Field>(
        &mut self,
        alloc: Global,
        field: &F,
        circuit: &Combinational,
        bases: &[Basis],
        drivers: &[Option<u32>],
        number: u32,
        bound: u32,
        line: Line,
    ) -> Result<(), CertFault>
        requires bases { AreBases (F.degree field.now) (F.product field.now) circuit.now bases.now }
        requires drivers { AreDrivers circuit.now.net drivers.now }
        requires kept { (c : Certificate) × Keeps (F.degree field.now) (F.product field.now) circuit.now bases.now bound self.old c }
        requires held { IsHeld circuit.now bases.now (F.degree field.now) self.old.sum }
        requires last { IsLast (F.degree field.now) (F.product field.now) circuit.now bases.now self.old.last }
        requires line { IsLineOf (F.degree field.now) circuit.now bases.now (length self.old.shared.items) line }
        ensures { AddsLine (F.degree field.now) (F.product field.now) circuit.now bases.now bound number result self.old self.new line }
    {
        match line {
            Line::Pair(generator, multiplier) => self.add_pair(
                alloc,
                field,
                circuit,
                bases,
                drivers,
                number,
                bound,
                generator,
                &multiplier,
            ),
            Line::Share(poly) => self.share(alloc, &poly),
        }
    }

    // The verdict, where nothing follows; the next line would have this number.
    fn ended<F: Field>(
        mut self,
        alloc: Global,
        field: &F,
        circuit: &Combinational,
        bases: &[Basis],
        number: u32,
        rest: &[u8],
    ) -> Result<CertVerdict, CertFault>
        requires bases { AreBases (F.degree field.now) (F.product field.now) circuit.now bases.now }
        requires held { IsHeld circuit.now bases.now (F.degree field.now) self.sum }
        ensures { EndsWith (F.degree field.now) (F.product field.now) circuit.now bases.now self number (lines rest.now) result }
    {
        if rest.is_empty() {
            self.sum.flush(alloc, field, circuit, bases)?;
            let remaining = self.sum.len() as u64;
            if remaining == 0 {
                let Checking {
                    claim,
                    shared,
                    sum,
                    last,
                } = self;
                drop(shared);
                drop(sum);
                drop(last);
                Ok(CertVerdict::Valid(claim))
            } else {
                Ok(CertVerdict::Invalid { remaining })
            }
        } else {
            Err(CertFault::Syntax { line: number })
        }
    }
}

// What a line after the claim says, where so many shared multipliers stand before it.
fn line_said<F: Field>(
    alloc: Global,
    field: &F,
    circuit: &Combinational,
    drivers: &[Option<u32>],
    labels: &Labels,
    version: u32,
    count: u32,
    line: &[u8],
) -> Result<Option<Line>, LineFault>
    requires { AreDrivers circuit.now.net drivers.now }
    ensures value { SaysLine (F.degree field.now) circuit.now.net labels.now version count line.now result }
    ensures is { IfOk result (λ said. IfSome said (IsLine (F.degree field.now) circuit.now.net labels.now count)) }
{
    let k = field.k();
    let net = circuit.net();
    read_line(alloc, k, net, drivers, labels, version, count, line)
}

/// The verdict of the lines after the claim.
pub(crate) fn verdict_from<F: Field>(
    alloc: Global,
    field: &F,
    circuit: &Combinational,
    bases: &[Basis],
    drivers: &[Option<u32>],
    labels: &Labels,
    bound: u32,
    version: u32,
    claim: Poly,
    sum: TermMap,
    bytes: &[u8],
) -> Result<CertVerdict, CertFault>
    requires k { circuit.now.binding.k ≡ F.degree field.now }
    requires bases { AreBases (F.degree field.now) (F.product field.now) circuit.now bases.now }
    requires labels { NameWords circuit.now.binding labels.now }
    requires few { length labels.now.words ≤ 8 }
    requires drivers { AreDrivers circuit.now.net drivers.now }
    requires size { length bytes.now ≤ 67108864 }
    requires sum { IsRunningSum (F.degree field.now) (F.product field.now) circuit.now bases.now (begun claim.terms) sum.terms }
    requires within { length sum.terms ≤ bound }
    ensures { IsVerdictAfter (F.degree field.now) (F.product field.now) circuit.now bases.now labels.now bound version (lines bytes.now) claim.terms result }
{
    let held = RunningSum::new(alloc, sum);
    let mut checking = Checking {
        claim,
        shared: Vec::new(alloc),
        sum: held,
        last: LastGenerator::none(alloc),
    };
    let mut rest = bytes;
    let mut number: u32 = 3;
    'turns: while !rest.is_empty() {
        let (text, more) = next_line(rest);
        let count = checking.shared.as_slice().len() as u32;
        let said = match line_said(alloc, field, circuit, drivers, labels, version, count, text) {
            Ok(said) => said,
            Err(fault) => return Err(at_line(number, fault)),
        };
        let line = match said {
            Some(line) => line,
            None => return checking.ended(alloc, field, circuit, bases, number + 1, more),
        };
        match checking.add(alloc, field, circuit, bases, drivers, number, bound, line) {
            Ok(()) => {}
            Err(fault) => return Err(fault),
        }
        rest = more;
        number += 1;
    }
    Err(CertFault::NoEnd)
}
