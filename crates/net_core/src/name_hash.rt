//! Hashes of names.
ghost use Rattle.std.specs.Prelude.{◌≡◌, ◌/◌, ◌^◌, length};
ghost use Rattle.net_core.specs.KeyedHash.{key_start, start_of};
ghost use Rattle.net_core.specs.private.NameHash.{key_factor, hash_of, number_after};

use crate::KeyedHash;
use std::hash::BuildHasher;

// The most bytes of a short name: with its length they are sixteen digits to base 256.
const SHORT: usize = 15;

// A hash of names with a key: of a short name it is the upper half of the product with a factor that is made of the key,
// of a longer one SipHash. Where the key is not known before the names are, nobody can look for names that collide.
#[derive(Clone, Copy)]
pub(crate) struct NameHash {
    factor: u128,
    long: KeyedHash,
}

impl NameHash {
    // The hash with this key.
    pub(crate) fn new(key: u64) -> NameHash
        ensures factor { result.factor ≡ key_factor key }
        ensures long { start_of result.long ≡ key_start key }
    {
        let long = KeyedHash::new(key);
        let upper = u128::from(long.hash_one(0u64));
        let lower = u128::from(long.hash_one(1u64));
        NameHash {
            factor: upper << 64 | lower | 1,
            long,
        }
    }

    // The hash of a name.
    pub(crate) fn of_name(&self, name: &str) -> u64
        ensures { result ≡ hash_of self.now name.now }
    {
        if name.len() <= SHORT {
            let product = self.factor.wrapping_mul(text_number(name.as_bytes()));
            upper_half(product)
        } else {
            self.long.of_name(name)
        }
    }
}

// The number whose digits to base 256 are the length and the bytes of a text.
fn text_number(text: &[u8]) -> u128
    ensures { result ≡ number_after (length text.now) text.now }
{
    let mut number = text.len() as u128;
    for byte in text {
        number = number.wrapping_mul(256).wrapping_add(u128::from(*byte));
    }
    number
}

// The upper 64 bits of a number.
fn upper_half(number: u128) -> u64
    ensures { result ≡ number / 2 ^ 64 }
{
    (number >> 64) as u64
}
