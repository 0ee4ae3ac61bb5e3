//! What multipliers are known by, as keys of a map.
ghost use Rattle.std.specs.Prelude.{◌≡◌, [], refl, IfOk};
ghost use Rattle.std.specs.Cmp.{partial_order_from_total, partial_equiv_from_equiv, eq_by_cmp_equiv};
ghost use Rattle.std.specs.Ordering.{eq_by_cmp, as_partial_cmp};
ghost use Rattle.cert_make.specs.private.Keys.{key_cmp, key_cmp_total, rest_cmp};

use std::alloc::{AllocError, Global};
use std::cmp::Ordering;
use std::marker::Model;

/// What a multiplier is known by: a coefficient and at most one bit of a word where it has these alone, and else its text.
/// Two that are alike are told apart, or told the same, by numbers where they can be.
#[derive(Drop)]
pub(crate) struct Key {
    // 0 where it is known by its text
    coefficient: u64,
    // 0 where it has no bit, else one more than the bit's rank
    place: u64,
    // empty where it is not known by it
    bytes: Vec<u8>,
}

impl Model for Key {
    ghost use Rattle.cert_make.specs.private.Keys.{KeyParts};

    ghost Value = { KeyParts };

    ghost view = { λ k. record { coefficient = k.coefficient; place = k.place; bytes = k.bytes.items } };
}

impl Key {
    /// Of a coefficient and a place. It takes no memory.
    pub(crate) fn short(alloc: Global, coefficient: u64, place: u64) -> Key
        ensures { result ≡ record { coefficient = coefficient; place = place; bytes = [] } }
    {
        Key {
            coefficient,
            place,
            bytes: Vec::new(alloc),
        }
    }

    /// Of a text.
    pub(crate) fn long(bytes: Vec<u8>) -> Key
        ensures { result ≡ record { coefficient = 0; place = 0; bytes = bytes.items } }
    {
        Key {
            coefficient: 0,
            place: 0,
            bytes,
        }
    }

    /// Its coefficient, or 0.
    pub(crate) fn coefficient(&self) -> u64
        ensures { result ≡ self.now.coefficient }
    {
        self.coefficient
    }

    /// Its place.
    pub(crate) fn place(&self) -> u64
        ensures { result ≡ self.now.place }
    {
        self.place
    }

    /// Its text, where it is known by that.
    pub(crate) fn bytes(&self) -> &[u8]
        ensures { result.now ≡ self.now.bytes }
    {
        self.bytes.as_slice()
    }

    /// Another key that is the same.
    pub(crate) fn copied(&self, alloc: Global) -> Result<Key, AllocError>
        ensures { IfOk result (λ k. k ≡ self.now) }
    {
        let bytes = Vec::from_slice(alloc, self.bytes.as_slice())?;
        Ok(Key {
            coefficient: self.coefficient,
            place: self.place,
            bytes,
        })
    }

    // The order after the coefficients.
    fn compare_rest(&self, other: &Key) -> Ordering
        ensures { result ≡ rest_cmp self.now other.now }
    {
        match self.place.cmp(&other.place) {
            Ordering::Equal => self.bytes.as_slice().cmp(&other.bytes.as_slice()),
            decided => decided,
        }
    }
}

impl PartialEq for Key {
    ghost eq = { eq_by_cmp key_cmp };

    ghost laws = { partial_equiv_from_equiv (eq_by_cmp_equiv key_cmp_total) };

    fn eq(&self, other: &Key) -> bool {
        self.cmp(other) == Ordering::Equal
    }
}

impl Eq for Key {
    ghost laws = { eq_by_cmp_equiv key_cmp_total };
}

impl Ord for Key {
    ghost cmp = { key_cmp };

    ghost total = { key_cmp_total };

    ghost matches_partial_cmp = { λ x y. refl };

    ghost matches_eq = { λ x y. refl };

    fn cmp(&self, other: &Key) -> Ordering {
        match self.coefficient.cmp(&other.coefficient) {
            Ordering::Equal => self.compare_rest(other),
            decided => decided,
        }
    }
}

impl PartialOrd for Key {
    ghost partial_cmp = { as_partial_cmp key_cmp };

    ghost laws = { partial_order_from_total key_cmp_total };

    fn partial_cmp(&self, other: &Key) -> Option<Ordering> {
        Some(self.cmp(other))
    }
}
