//! The specification of a trial.
ghost use Rattle.std.specs.Prelude.{◌≡◌, IfOk, length};
ghost use Rattle.job_input.specs.Labelling.{labels_of};
ghost use Rattle.spec_expand.specs.Specification.{IsOverWords};
ghost use Rattle.make_trial.specs.Trial.{product_terms, trial_words};

use gf_field::Field;
use poly_mixed::Labels;
use spec_expand::{Spec, SpecTerm};
use std::alloc::{AllocError, Global};

/// The product of the two words of a trial.
pub fn product_spec<F: Field>(alloc: Global, field: &F, labels: &Labels) -> Result<Spec, AllocError>
    requires { labels.now ≡ labels_of (F.degree field.now) (trial_words (F.degree field.now)) }
    ensures product { IfOk result (λ spec. spec ≡ product_terms) }
    ensures over { IfOk result (IsOverWords (F.degree field.now) (length labels.now.words)) }
{
    let _k = field.k();
    let _words = labels.words();
    match product_of_two(alloc) {
        Ok(spec) => Ok(spec),
        Err(error) => Err(error),
    }
}

// One term: the word 0 times the word 1.
fn product_of_two(alloc: Global) -> Result<Spec, AllocError>
    ensures { IfOk result (λ spec. spec ≡ product_terms) }
{
    let mut powers = Vec::new(alloc);
    powers.push((0, 1))?;
    powers.push((1, 1))?;
    let mut terms = Vec::new(alloc);
    terms.push(SpecTerm::new(1, powers))?;
    Ok(Spec::new(terms))
}
