//! Formals of a model.
ghost use Rattle.std.specs.Prelude.{All};
ghost use Rattle.net_blif.specs.Statement.{IsToken};

use crate::table::Table;
use crate::token_list::TokenList;

/// The formals of a model: a table of all of them, and the inputs, each once.
pub struct Formals {
    pub names: Table,
    pub inputs: TokenList,
    ghost are_tokens: { All IsToken inputs },
}

// By hand, so that a caller that lets one go makes one call, and not one for each part.
impl Drop for Formals {
    fn drop(self) {
        let Formals { names, inputs } = self;
        drop(names);
        drop(inputs);
    }
}
