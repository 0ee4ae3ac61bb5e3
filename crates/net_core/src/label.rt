//! What nets are called.
ghost use Rattle.std.specs.Prelude.{◌≡◌, IfOk};
ghost use Rattle.net_core.specs.NetList.{is_named};

use smallvec::SmallVec;
use std::alloc::{AllocError, Global};
use std::marker::Model;

// What a net is called. The text of a net that is not named is for messages alone. A short text takes no memory of
// its own.
#[derive(Drop)]
pub(crate) struct Label {
    text: SmallVec<u8, 16>,
    named: bool,
}

impl Model for Label {
    ghost use Rattle.std.specs.Str.{IsUtf8};
    ghost use Rattle.net_core.specs.NetList.{LabelValue};

    ghost Value = { LabelValue };

    ghost view = { λ label. record { text = label.text.items; named = label.named } };

    ghost invariant = { λ label. IsUtf8 label.text.items };
}

impl Label {
    pub(crate) fn new(alloc: Global, text: &str, named: bool) -> Result<Label, AllocError>
        ensures { IfOk result (λ label. label ≡ record { text = text.now; named = named }) }
    {
        Ok(Label {
            text: SmallVec::from_slice(alloc, text.as_bytes())?,
            named,
        })
    }

    pub(crate) fn as_str(&self) -> &str
        ensures { result.now ≡ self.now.text }
    {
        match std::str::from_utf8(self.text.as_slice()) {
            Ok(text) => text,
            Err(_) => "",
        }
    }

    // Whether it is this name.
    pub(crate) fn is(&self, name: &str) -> bool
        ensures { result ≡ is_named name.now self.now }
    {
        self.named && name.as_bytes() == self.text.as_slice()
    }
}
