//! Whether two names are the same.
ghost use Rattle.std.specs.Prelude.{◌≡◌, ◌↔◌, ◌-◌, ◌≤◌, IsTrue, drop, length, take};

// The first 4 bytes of a name.
fn first_four(name: &[u8]) -> &[u8; 4]
    requires { 4 ≤ length name.now }
    ensures { result.now ≡ take 4 name.now }
{
    name.first_chunk::<4>().unwrap()
}

// The last 4 bytes of a name.
fn last_four(name: &[u8]) -> &[u8; 4]
    requires { 4 ≤ length name.now }
    ensures { result.now ≡ drop (length name.now - 4) name.now }
{
    name.last_chunk::<4>().unwrap()
}

// Whether two names begin with the same 4 bytes.
fn begin_same(name: &[u8], other: &[u8]) -> bool
    requires name { 4 ≤ length name.now }
    requires other { 4 ≤ length other.now }
    ensures { IsTrue result ↔ (take 4 name.now ≡ take 4 other.now) }
{
    first_four(name) == first_four(other)
}

// Whether two names end with the same 4 bytes.
fn end_same(name: &[u8], other: &[u8]) -> bool
    requires name { 4 ≤ length name.now }
    requires other { 4 ≤ length other.now }
    ensures { IsTrue result ↔ (drop (length name.now - 4) name.now ≡ drop (length other.now - 4) other.now) }
{
    last_four(name) == last_four(other)
}

// Whether two names of 4 to 8 bytes, both of as many, are the same: both ends are, and no byte stands between them.
fn are_same_short(name: &[u8], other: &[u8]) -> bool
    requires long { length name.now ≡ length other.now }
    requires four { 4 ≤ length name.now }
    requires eight { length name.now ≤ 8 }
    ensures { IsTrue result ↔ (name.now ≡ other.now) }
{
    if begin_same(name, other) {
        end_same(name, other)
    } else {
        false
    }
}

/// Whether two names are the same. Those of 4 to 8 bytes are compared without a call.
pub fn is_same(name: &[u8], other: &[u8]) -> bool
    ensures { IsTrue result ↔ (name.now ≡ other.now) }
{
    let size = name.len();
    if size == other.len() && 4 <= size && size <= 8 {
        are_same_short(name, other)
    } else {
        name == other
    }
}
