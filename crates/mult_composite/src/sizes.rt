//! The degrees of a tower and of the field below it.
ghost use Rattle.std.specs.Prelude.{◌≡◌, ◌*◌, ◌≤◌};
ghost use Rattle.gf_field.specs.Ring2k.{degree_of};
ghost use Rattle.irreducible.specs.Proved.{ring_of};
ghost use Rattle.gf_tower.specs.TowerParts.{base_of, size_of};

use gf_field::{Ring, Ring2k};
use gf_tower::Tower;
use irreducible::Proved;

// The degree of the field below.
pub(crate) fn degree_below(tower: &Tower<Proved<Ring2k>>) -> usize
    ensures is { result ≡ degree_of (ring_of (base_of tower.now)) }
    ensures some { 1 ≤ result }
    ensures low { result ≤ 32 }
{
    let n = tower.base().k();
    n as usize
}

// The degree of the tower over it.
pub(crate) fn size(tower: &Tower<Proved<Ring2k>>) -> usize
    ensures is { result ≡ size_of tower.now }
    ensures two { 2 ≤ result }
    ensures few { result ≤ 64 }
    ensures small { degree_of (ring_of (base_of tower.now)) * result ≤ 64 }
{
    let coefficients = tower.coefficients();
    coefficients.len()
}
