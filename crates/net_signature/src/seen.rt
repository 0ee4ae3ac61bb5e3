//! Texts that were seen.
ghost use Rattle.std.specs.Prelude.{◌≡◌, ◌||◌, ℕ, List, is_some, string_bytes, OnOk};
ghost use Rattle.std.specs.Str.{bytes_eq};
ghost use Rattle.indexmap.specs.IndexMap.{get_by_text};

use indexmap::IndexMap;
use net_core::KeyedHash;
use std::alloc::AllocError;

/// Texts, looked up by a hash whose key is made of the file, so that texts that collide cannot be looked for.
pub type Seen = IndexMap<String, u32, KeyedHash>;

/// Whether the text is one of these.
pub fn is_seen(seen: &Seen, text: &str) -> bool
    ensures { result ≡ is_some (get_by_text seen.now text.now) }
{
    seen.get(text).is_some()
}

/// One more text.
pub fn add_text(seen: &mut Seen, text: String) -> Result<(), AllocError>
    ensures { OnOk result ((q : List ℕ) → is_some (get_by_text seen.new q) ≡ (bytes_eq (string_bytes text) q || is_some (get_by_text seen.old q))) }
{
    seen.insert(text, 0)?;
    Ok(())
}
