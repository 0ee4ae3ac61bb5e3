//! What is known of names on the way.
use crate::known_names::KnownNames;

/// Where the walk is: in the chosen model, whose names the net list has, or in an instance, whose names have numbers of their
/// own and whose new nets are called by the prefix and their names.
pub struct Scope {
    pub is_top: bool,
    pub prefix: String,
    pub numbers: KnownNames,
}

// By hand, so that a caller that lets one go makes one call, and not one for each part.
impl Drop for Scope {
    fn drop(self) {
        let Scope {
            is_top: _,
            prefix,
            numbers,
        } = self;
        drop(prefix);
        drop(numbers);
    }
}
