//! The numbers of blocks by their names.
ghost use Rattle.std.specs.Prelude.{◌≡◌, ◌<◌, ◌^◌, ℕ, List, length, IfOk};
ghost use Rattle.indexmap.specs.IndexMap.{get_by_text};
ghost use Rattle.compose_model.specs.Hierarchy.{block_from};

use indexmap::IndexMap;
use net_blif::with_number;
use net_core::KeyedHash;
use net_signature::Block;
use std::alloc::{AllocError, Global};

/// The number of each block by its name.
pub(crate) type Numbers = IndexMap<String, u32, KeyedHash>;

/// The number of a name.
pub(crate) fn number_of(numbers: &Numbers, name: &str) -> Option<u32>
    ensures { result ≡ get_by_text numbers.now name.now }
{
    numbers.get(name).copied()
}

/// The numbers of blocks, by a hash with this key.
pub(crate) fn numbers_of(alloc: Global, key: u64, blocks: &[Block]) -> Result<Numbers, AllocError>
    requires { length blocks.now < 2 ^ 32 }
    ensures { IfOk result (λ numbers. (name : List ℕ) → get_by_text numbers name ≡ block_from 0 blocks.now name) }
{
    let mut numbers = IndexMap::with_hasher(alloc, KeyedHash::new(key));
    for i in 0..blocks.len() {
        numbers = with_number(alloc, numbers, blocks[i].model(), i as u32)?;
    }
    Ok(numbers)
}
