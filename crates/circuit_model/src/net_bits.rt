//! The bits of nets as a number.
ghost use Rattle.std.specs.Prelude.{◌≡◌, ◌≤◌, ◌<◌, ◌^◌, length, if◌then◌else◌};
ghost use Rattle.net_core.specs.Value.{bit_of, index_of};

// The bit of a net as a number.
fn bit(bits: &[bool], net: u32) -> u64
    ensures { result ≡ (if bit_of bits.now net then 1 else 0) }
{
    match bits.get(net as usize) {
        Some(true) => 1,
        _ => 0,
    }
}

/// The number whose bit i is the bit of the i-th of these nets; a net past the end of the list of bits has the bit 0.
pub fn number_of_bits(bits: &[bool], nets: &[u32]) -> u64
    requires { length nets.now ≤ 64 }
    ensures number { result ≡ index_of bits.now nets.now }
    ensures small { result < 2 ^ length nets.now }
{
    match nets {
        [] => 0,
        [first, rest @ ..] => bit(bits, *first) + 2 * number_of_bits(bits, rest),
    }
}
