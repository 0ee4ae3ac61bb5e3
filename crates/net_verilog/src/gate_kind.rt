//! Gates of the language.
ghost use Rattle.std.specs.Prelude.{◌≡◌, ◌<◌, ◌^◌, true};
ghost use Rattle.net_verilog.specs.Instances.{fits_gate, gate_of as gate_that, gate_table as table_that};

/// A gate. `not` and `buf` have one input, the others two to six.
#[derive(Clone, Copy)]
pub enum GateKind {
    And,
    Or,
    Xor,
    Nand,
    Nor,
    Xnor,
    Not,
    Buf,
}

/// The gate of a keyword.
pub fn gate_of(word: &[u8]) -> Option<GateKind>
    ensures { result ≡ gate_that word.now }
{
    if word == b"and".as_slice() {
        Some(GateKind::And)
    } else if word == b"or".as_slice() {
        Some(GateKind::Or)
    } else if word == b"xor".as_slice() {
        Some(GateKind::Xor)
    } else if word == b"nand".as_slice() {
        Some(GateKind::Nand)
    } else if word == b"nor".as_slice() {
        Some(GateKind::Nor)
    } else if word == b"xnor".as_slice() {
        Some(GateKind::Xnor)
    } else if word == b"not".as_slice() {
        Some(GateKind::Not)
    } else if word == b"buf".as_slice() {
        Some(GateKind::Buf)
    } else {
        None
    }
}

/// Whether a gate may have so many inputs.
pub fn fits(kind: GateKind, inputs: usize) -> bool
    ensures { result ≡ fits_gate kind inputs }
{
    match kind {
        GateKind::Not => inputs == 1,
        GateKind::Buf => inputs == 1,
        _ => 2 <= inputs && inputs <= 6,
    }
}

fn and_table(inputs: usize) -> u64
    requires { fits_gate GateKind.And inputs ≡ true }
    ensures { result ≡ table_that GateKind.And inputs }
{
    match inputs {
        2 => 0x8,
        3 => 0x80,
        4 => 0x8000,
        5 => 0x80000000,
        _ => 0x8000000000000000,
    }
}

fn or_table(inputs: usize) -> u64
    requires { fits_gate GateKind.Or inputs ≡ true }
    ensures { result ≡ table_that GateKind.Or inputs }
{
    match inputs {
        2 => 0xe,
        3 => 0xfe,
        4 => 0xfffe,
        5 => 0xfffffffe,
        _ => 0xfffffffffffffffe,
    }
}

fn xor_table(inputs: usize) -> u64
    requires { fits_gate GateKind.Xor inputs ≡ true }
    ensures { result ≡ table_that GateKind.Xor inputs }
{
    match inputs {
        2 => 0x6,
        3 => 0x96,
        4 => 0x6996,
        5 => 0x96696996,
        _ => 0x6996966996696996,
    }
}

fn nand_table(inputs: usize) -> u64
    requires { fits_gate GateKind.Nand inputs ≡ true }
    ensures { result ≡ table_that GateKind.Nand inputs }
{
    match inputs {
        2 => 0x7,
        3 => 0x7f,
        4 => 0x7fff,
        5 => 0x7fffffff,
        _ => 0x7fffffffffffffff,
    }
}

fn nor_table(inputs: usize) -> u64
    requires { fits_gate GateKind.Nor inputs ≡ true }
    ensures { result ≡ table_that GateKind.Nor inputs }
{
    match inputs {
        2 => 0x1,
        3 => 0x1,
        4 => 0x1,
        5 => 0x1,
        _ => 0x1,
    }
}

fn xnor_table(inputs: usize) -> u64
    requires { fits_gate GateKind.Xnor inputs ≡ true }
    ensures { result ≡ table_that GateKind.Xnor inputs }
{
    match inputs {
        2 => 0x9,
        3 => 0x69,
        4 => 0x9669,
        5 => 0x69969669,
        _ => 0x9669699669969669,
    }
}

/// The table of a gate.
pub fn gate_table(kind: GateKind, inputs: usize) -> u64
    requires { fits_gate kind inputs ≡ true }
    ensures same { result ≡ table_that kind inputs }
    ensures few { result < 2 ^ (2 ^ inputs) }
{
    match kind {
        GateKind::And => and_table(inputs),
        GateKind::Or => or_table(inputs),
        GateKind::Xor => xor_table(inputs),
        GateKind::Nand => nand_table(inputs),
        GateKind::Nor => nor_table(inputs),
        GateKind::Xnor => xnor_table(inputs),
        GateKind::Not => 1,
        GateKind::Buf => 2,
    }
}
