//! The specification of a file.
ghost use Rattle.std.specs.Prelude.{◌≡◌, ◌≤◌, length, IfOk};
ghost use Rattle.outcome.specs.Outcome.{Within};
ghost use Rattle.spec_expand.specs.Specification.{IsOverWords};
ghost use Rattle.job_words.specs.Stop.{GivesBy};
ghost use Rattle.job_words.specs.declared.fault.Fault.TheVariants.{Specification};
ghost use Rattle.job_input.specs.Reads.{ReadsOver};
ghost use Rattle.job_input.specs.SpecificationIn.{SpecificationOf, SpecificationIn};
ghost use Rattle.job_input.specs.private.Stops.{specification_stop};

use crate::files::read_file;
use gf_field::Field;
use job_io::Shelf;
use job_words::{Fault, SpecificationFault, Stop};
use poly_mixed::Labels;
use spec_expand::Spec;
use spec_text::{SpecFault, read_spec};
use std::alloc::Global;

/// The specification of a file over the words of these labels, each of k bits, or the first fault: that of the file, or of
/// the first token of its text that has one.
pub fn read_specification<F: Field, S: Shelf>(
    alloc: Global,
    field: &F,
    shelf: &mut S,
    labels: &Labels,
    file: &str,
) -> Result<Spec, Stop>
    ensures held { S.held shelf.new ≡ S.held shelf.old }
    ensures never_fall { (S.faults shelf.old ≤ S.faults shelf.new) × (S.misses shelf.old ≤ S.misses shelf.new) }
    ensures gives { ReadsOver S.held S.misses S.faults shelf.old shelf.new result (λ held. SpecificationIn held labels.now (F.degree field.now) (F.product field.now) file.now) }
    ensures over { IfOk result (IsOverWords (F.degree field.now) (length labels.now.words)) }
{
    let text = match read_file(alloc, shelf, file) {
        Ok(text) => text,
        Err(stop) => return Err(stop),
    };
    specification_of(alloc, field, labels, &text)
}

// The specification of a text of at most 67,108,864 bytes.
fn specification_of<F: Field>(
    alloc: Global,
    field: &F,
    labels: &Labels,
    text: &[u8],
) -> Result<Spec, Stop>
    requires { length text.now ≤ 67108864 }
    ensures gives { GivesBy (λ spec. spec) result (Within Specification (SpecificationOf labels.now (F.degree field.now) (F.product field.now) text.now)) ⊥ ⊥ }
    ensures over { IfOk result (IsOverWords (F.degree field.now) (length labels.now.words)) }
{
    match read_spec(alloc, field, text, labels) {
        Ok(spec) => Ok(spec),
        Err(fault) => Err(text_stop(fault)),
    }
}

// What a fault of a specification's text ends with.
fn text_stop(fault: SpecFault) -> Stop
    ensures { result ≡ specification_stop fault }
{
    match fault {
        SpecFault::Syntax { place } => refused(SpecificationFault::Syntax { place }),
        SpecFault::UnknownWord { place } => refused(SpecificationFault::UnknownWord { place }),
        SpecFault::BadNumber { place } => refused(SpecificationFault::BadNumber { place }),
        SpecFault::OutOfMemory => Stop::OutOfMemory,
    }
}

// The refusal of a specification.
fn refused(fault: SpecificationFault) -> Stop
    ensures { result ≡ Stop.Refused (Specification fault) }
{
    Stop::Refused(Fault::Specification(fault))
}
