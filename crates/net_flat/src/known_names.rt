//! What is known of the names of a model.
ghost use Rattle.indexmap.specs.IndexMap.{get_by_text};
ghost use Rattle.net_flat.specs.private.Marking.{AreBefore};

use crate::mark::Mark;
use crate::order::Order;
use indexmap::IndexMap;
use net_core::KeyedHash;
use std::alloc::Global;

/// The names that walks over a model met, each with its mark, by a hash with a key. A name has a number only where its mark
/// is of the present walk, so that what is kept of a name serves all walks over the model: the next one finds each name
/// where it stood, and neither hashes nor copies it. The place is where the name stands that was mentioned last, if it
/// stands there.
pub struct KnownNames {
    pub alloc: Global,
    pub marks: IndexMap<String, Mark, KeyedHash>,
    pub walk: u32,
    pub place: Option<usize>,
    pub names: Order,
    pub formals: Order,
    ghost before: { AreBefore (get_by_text marks) walk },
}

// By hand, so that a caller that lets one go makes one call, and not one for each part.
impl Drop for KnownNames {
    fn drop(self) {
        let KnownNames {
            alloc: _,
            marks,
            walk: _,
            place: _,
            names,
            formals,
        } = self;
        drop(marks);
        drop(names);
        drop(formals);
    }
}
