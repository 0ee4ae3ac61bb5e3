//! The labels with which the polynomials over a setting are printed.
ghost use Rattle.std.specs.Prelude.{◌≡◌, IfOk};
ghost use Rattle.job_input.specs.Labelling.{labels_of};
ghost use Rattle.job_input.specs.Setting.{IsReady};

use gf_field::Field;
use job_input::{Setting, labels_for};
use poly_mixed::Labels;
use std::alloc::{AllocError, Global};

/// The labels of a setting.
pub fn labels<F: Field>(alloc: Global, field: &F, setting: &Setting) -> Result<Labels, AllocError>
    requires { IsReady (F.degree field.now) (F.product field.now) setting.now }
    ensures { IfOk result (λ labels. labels ≡ labels_of (F.degree field.now) setting.now.signature.words) }
{
    labels_for(alloc, setting.signature.words(), field.k())
}
