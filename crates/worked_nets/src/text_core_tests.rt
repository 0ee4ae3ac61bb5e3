//! Vectors of numbers, lines and names.
use std::alloc::{AllocError, Global};
use text_core::{before_comment, is_name, next_line, read_decimal, read_hex, tokens};

// Tokens with the largest number that is read and what is read.
static HEX_TOKENS: [(&[u8], u128, Option<u128>); 12] = [
    (b"0x0", 0xffff_ffff_ffff_ffff, Some(0)),
    (b"0x7", 0xffff_ffff_ffff_ffff, Some(7)),
    (b"0x00fF", 0xffff_ffff_ffff_ffff, Some(255)),
    (b"0xaB", 0xffff_ffff_ffff_ffff, Some(171)),
    (
        b"0xffffffffffffffff",
        0xffff_ffff_ffff_ffff,
        Some(0xffff_ffff_ffff_ffff),
    ),
    (b"0x10000000000000000", 0xffff_ffff_ffff_ffff, None),
    (b"0x", 0xffff_ffff_ffff_ffff, None),
    (b"0xg", 0xffff_ffff_ffff_ffff, None),
    (b"0X1", 0xffff_ffff_ffff_ffff, None),
    (b"12", 0xffff_ffff_ffff_ffff, None),
    (
        b"0xffffffffffffffffffffffffffffffff",
        u128::MAX,
        Some(u128::MAX),
    ),
    (b"0x100000000000000000000000000000000", u128::MAX, None),
];

#[test]
fn hexadecimals(rt: HostRuntime) {
    for (token, limit, value) in &HEX_TOKENS {
        assert!(rt; read_hex(token, *limit) == *value, "at {token:?}");
    }
}

static DECIMAL_TOKENS: [(&[u8], Option<u128>); 7] = [
    (b"0", Some(0)),
    (b"007", Some(7)),
    (b"1048576", Some(1_048_576)),
    (b"1048577", None),
    (b"", None),
    (b"1a", None),
    (b"-1", None),
];

#[test]
fn decimals(rt: HostRuntime) {
    for (token, value) in &DECIMAL_TOKENS {
        assert!(rt; read_decimal(token, 1_048_576) == *value, "at {token:?}");
    }
}

// Whether the first line and the rest of a text are these.
fn is_cut(text: &[u8], first: &[u8], rest: &[u8]) -> bool {
    if text.is_empty() {
        return false;
    }
    let found = next_line(text);
    found.0 == first && found.1 == rest
}

// Whether what stands before a line's comment has these tokens.
fn has_tokens(alloc: Global, line: &[u8], wanted: &[&[u8]]) -> Result<bool, AllocError> {
    let found = tokens(alloc, before_comment(line))?;
    Ok(found.as_slice() == wanted)
}

#[test]
fn lines_and_tokens(rt: HostRuntime) {
    assert!(rt; is_cut(b"a\tb  c #d\r\ne\r", b"a\tb  c #d", b"e\r"));
    assert!(rt; is_cut(b"e\r", b"e\r", b""));
    assert!(rt; before_comment(b"a\tb  c #d") == b"a\tb  c ".as_slice());
    let found = has_tokens(rt.alloc(), b"a\tb  c #d", &[b"a", b"b", b"c"]);
    assert!(rt; found == Ok(true));
}

static NAME_TOKENS: [(&[u8], bool); 8] = [
    (b"A", true),
    (b"sum_2", true),
    (b"_a", false),
    (b"2a", false),
    (b"", false),
    (b"a-b", false),
    (&[b'z'; 255], true),
    (&[b'z'; 256], false),
];

#[test]
fn names(rt: HostRuntime) {
    for (token, is) in &NAME_TOKENS {
        assert!(rt; is_name(token) == *is, "at {token:?}");
    }
}
