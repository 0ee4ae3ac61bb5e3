//! A hash with a key.
ghost use Rattle.std.specs.Prelude.{◌≡◌};
ghost use Rattle.net_core.specs.KeyedHash.{key_start, name_hash, start_of, text_key};

use std::hash::{BuildHasher, DefaultHasher, Hasher};

/// SipHash of a key and what is hashed. Where the key is not known before the names are, nobody can look for names
/// that collide.
#[derive(Clone, Copy)]
pub struct KeyedHash {
    start: DefaultHasher,
}

impl KeyedHash {
    /// The hash with this key.
    pub fn new(key: u64) -> KeyedHash
        ensures { start_of result ≡ key_start key }
    {
        let mut start = DefaultHasher::new();
        start.write_u64(key);
        KeyedHash { start }
    }

    // The hash of a name.
    pub(crate) fn of_name(&self, name: &str) -> u64
        ensures { result ≡ name_hash self.now name.now }
    {
        let mut state = self.start;
        state.write(name.as_bytes());
        state.finish()
    }
}

impl BuildHasher for KeyedHash {
    type Hasher = DefaultHasher;

    ghost build_hasher = { start_of };

    fn build_hasher(&self) -> DefaultHasher {
        self.start
    }
}

/// The key of a text, which is not known before the text is.
pub fn key_of(text: &[u8]) -> u64
    ensures { result ≡ text_key text.now }
{
    let mut state = DefaultHasher::new();
    state.write(text);
    state.finish()
}
