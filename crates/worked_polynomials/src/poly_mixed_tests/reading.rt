//! Texts that are read, and the first fault of each kind.
use super::common::{is_written, labels};
use poly_mixed::PolyFault::{NoSuchBit, NoSuchNet, Syntax};
use poly_mixed::{Labels, PolyFault, read_poly};
use std::alloc::Global;
use std::process::Abort;

// whether a text over four elements is read, and written so
fn reads(alloc: Global, labels: &Labels, text: &[u8], want: &[u8]) -> bool {
    match read_poly(alloc, text, 2, labels) {
        Ok(poly) => is_written(alloc, &poly, labels, want),
        Err(_) => false,
    }
}

// whether a text over four elements has this fault
fn refuses(alloc: Global, labels: &Labels, text: &[u8], want: PolyFault) -> bool {
    match read_poly(alloc, text, 2, labels) {
        Ok(_) => false,
        Err(fault) => fault == want,
    }
}

// a product in bits, other spellings, sums, and terms out of their order
static READ: [(&[u8], &[u8]); 7] = [
    (
        b"A[0]*B[0] + 0x2*A[0]*B[1] + 0x2*A[1]*B[0] + 0x3*A[1]*B[1]",
        b"A[0]*B[0] + 0x2*A[0]*B[1] + 0x2*A[1]*B[0] + 0x3*A[1]*B[1]",
    ),
    (
        b"\t0x3 +A[00]*@09+ 0x2 * B*A ^ 003 + 0x0*A",
        b"0x2*A^3*B + A[0]*@9 + 0x3",
    ),
    (b"0x1*A^1 + A + 0", b"0"),
    (b"0", b"0"),
    (b"0 + 0x0", b"0"),
    (b"A + 0x3*A", b"0x2*A"),
    (
        b"0x3 + 0x2*B[1] + A[0]*@9 + 0x2*B*A^3",
        b"0x2*A^3*B + A[0]*@9 + 0x2*B[1] + 0x3",
    ),
];

// the number of the first row that is read otherwise; that of none is past the table
fn first_misread(alloc: Global, labels: &Labels) -> usize {
    for (i, (text, want)) in READ.iter().enumerate() {
        if !reads(alloc, labels, text, want) {
            return i;
        }
    }
    READ.len()
}

// texts that end too early; 0 that does not stand alone; a variable twice in a term; numbers out of range; words, nets
// and bits that do not exist
static REFUSED: [(&[u8], PolyFault); 21] = [
    (b"", Syntax),
    (b"A +", Syntax),
    (b"A*B*", Syntax),
    (b"A^", Syntax),
    (b"@", Syntax),
    (b"00", Syntax),
    (b"0*A", Syntax),
    (b"A B", Syntax),
    (b"A*B*A", Syntax),
    (b"A[0]*@9*A[0]", Syntax),
    (b"A^0", Syntax),
    (b"A^4", Syntax),
    (b"0x4*A", Syntax),
    (b"A*0x2", Syntax),
    (b"Z", Syntax),
    (b"C*@8", Syntax),
    (b"A*@8", NoSuchNet),
    (b"@8A", NoSuchNet),
    (b"@18446744073709551625", NoSuchNet),
    (b"A[2]", NoSuchBit),
    (b"C[0]*?", NoSuchBit),
];

// the number of the first row that is refused otherwise; that of none is past the table
fn first_misjudged(alloc: Global, labels: &Labels) -> usize {
    for (i, (text, want)) in REFUSED.iter().enumerate() {
        if !refuses(alloc, labels, text, *want) {
            return i;
        }
    }
    REFUSED.len()
}

// the numbers of the first rows that are read and refused otherwise
fn first_rows(rt: &impl Abort, alloc: Global) -> Option<(usize, usize)> {
    match labels(rt, alloc) {
        Ok(labels) => Some((
            first_misread(alloc, &labels),
            first_misjudged(alloc, &labels),
        )),
        Err(_) => None,
    }
}

#[test]
fn texts(rt: HostRuntime) {
    assert_eq!(rt; first_rows(&rt, rt.alloc()), Some((7, 21)));
}
