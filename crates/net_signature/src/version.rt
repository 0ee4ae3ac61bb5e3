//! The version of a text.

/// Which forms a text may have.
#[derive(Clone, Copy)]
pub enum Version {
    /// Words that are held in every cycle.
    One,
    /// Also words that are fed bit by bit, feeds, and a second tower.
    Two,
}

impl Version {
    ghost use Rattle.std.specs.Prelude.{◌≡◌};
    ghost use Rattle.net_signature.specs.Body.{has_feeds as version_has_feeds};

    /// Whether the text may have feeds.
    pub fn has_feeds(self) -> bool
        ensures { result ≡ version_has_feeds self }
    {
        match self {
            Version::One => false,
            Version::Two => true,
        }
    }
}
