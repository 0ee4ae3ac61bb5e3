//! What is known of the names of models, from one walk over them to the next.
ghost use Rattle.std.specs.Prelude.{◌≡◌, IfOk};
ghost use Rattle.net_blif.specs.Table.{no_numbers};
ghost use Rattle.net_flat.specs.private.KnownNumbers.{known_in};

use crate::known_names::KnownNames;
use indexmap::IndexMap;
use std::alloc::{AllocError, Global};

// The most models whose names are kept, so that a text of very many models takes little memory for it.
const MAX_KEPT: usize = 1 << 10;

/// What is known of the names of some models that were walked.
pub struct Kept {
    models: IndexMap<u32, KnownNames>,
}

// By hand, so that a caller that lets one go makes one call, and not one for each part.
impl Drop for Kept {
    fn drop(self) {
        let Kept { models } = self;
        drop(models);
    }
}

impl Kept {
    /// Nothing is kept. It takes no memory.
    pub fn new(alloc: Global) -> Kept {
        Kept {
            models: IndexMap::new(alloc),
        }
    }

    /// The names of a model before a walk over it. Where nothing is kept of them they are hashed with this key.
    pub fn names_of(
        &mut self,
        alloc: Global,
        key: u64,
        model: u32,
    ) -> Result<KnownNames, AllocError>
        ensures { IfOk result (λ names. known_in names ≡ no_numbers) }
    {
        let mut names = match self.models.swap_remove(&model) {
            Some(names) => names,
            None => KnownNames::new(alloc, key),
        };
        names.begin()?;
        Ok(names)
    }

    /// Keeps what is known of the names of a model, unless there is no memory or enough is kept.
    pub fn keep(&mut self, model: u32, names: KnownNames) {
        if self.models.len() < MAX_KEPT {
            let _is_kept = self.models.insert(model, names).is_ok();
        }
    }
}
