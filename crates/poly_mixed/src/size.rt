//! The bound on the size of a stage.
ghost use Rattle.std.specs.Prelude.{◌≡◌, ◌<◌, ◌≤◌, IfErr, OnOk};

use crate::{ReduceFault, Stage};

/// Refuses a stage of more terms than the bound.
pub fn check_size(terms: usize, bound: u32, stage: Stage) -> Result<(), ReduceFault>
    ensures within { OnOk result (terms ≤ bound) }
    ensures over { IfErr result (λ fault. (fault ≡ ReduceFault.TooManyTerms stage terms) × (bound < terms)) }
{
    let terms = terms as u64;
    if terms > u64::from(bound) {
        return Err(ReduceFault::TooManyTerms { stage, terms });
    }
    Ok(())
}
