//! Parts of tables.
ghost use Rattle.std.specs.Prelude.{◌≡◌, ◌+◌, ◌*◌, ◌<◌, ◌≤◌, ℕ, length, slice_index, IfOk};

use std::alloc::{AllocError, Global};

/// So many elements of a list, with this distance between them, from a place before it on.
pub(crate) fn gather(
    alloc: Global,
    list: &[u64],
    distance: usize,
    place: usize,
    count: usize,
) -> Result<Vec<u64>, AllocError>
    requires place { place < distance }
    requires within { count * distance ≤ length list.now }
    ensures long { IfOk result (λ part. length part.items ≡ count) }
    ensures at { IfOk result (λ part. (i : ℕ) → i < count → slice_index part.items i ≡ slice_index list.now (i * distance + place)) }
{
    let mut part = Vec::with_capacity(alloc, count)?;
    for i in 0..count {
        part.push(list[i * distance + place])?;
    }
    Ok(part)
}
