//! Polynomials of tables of gates, and their exclusive-or forms.
use super::common::has_text;
use crate::circuits::field;
use gf_field::Field;
use poly_mixed::{exclusive_form, table_poly};
use std::alloc::Global;
use std::process::Abort;

// whether the polynomial of a table has this text
fn has_polynomial<F: Field>(
    rt: &impl Abort,
    alloc: Global,
    field: &F,
    ranks: &[u32],
    table: u64,
    text: &[u8],
) -> bool {
    if ranks.len() > 6 {
        return false;
    }
    match table_poly(alloc, field, ranks, table) {
        Ok(poly) => has_text(rt, alloc, &poly, text),
        Err(_) => false,
    }
}

// one rank twice, ranks in falling order, and none
static TABLES: [(&[u32], u64, &[u8]); 5] = [
    (&[3, 3], 0b1000, b"B[1]"),
    (&[3, 3], 0b0110, b"0"),
    (&[5, 2], 0b0010, b"B[0]*@12 + @12"),
    (&[4, 0], 0b1000, b"A[0]*@9"),
    (&[], 1, b"0x1"),
];

#[test]
fn polynomials_of_tables(rt: HostRuntime) {
    for (ranks, table, text) in &TABLES {
        assert!(rt; has_polynomial(&rt, rt.alloc(), &field(&rt), ranks, *table, text));
    }
}

// where six bits are 0
#[test]
fn a_table_of_six_ranks(rt: HostRuntime) {
    let has_64_terms = match table_poly(rt.alloc(), &field(&rt), &[0, 1, 2, 3, 4, 5], 1) {
        Ok(poly) => poly.len() == 64,
        Err(_) => false,
    };
    assert!(rt; has_64_terms);
}

// functions of the first of six inputs, and their forms by hand: the constants, nothing and the empty product; a and its
// negation; a and b, a or b, exactly one of them; the majority of three; all six, and none of them
static FORMS: [(u64, u64); 10] = [
    (0, 0),
    (u64::MAX, 1),
    (0xaaaa_aaaa_aaaa_aaaa, 0b10),
    (0x5555_5555_5555_5555, 0b11),
    (0x8888_8888_8888_8888, 0b1000),
    (0xeeee_eeee_eeee_eeee, 0b1110),
    (0x6666_6666_6666_6666, 0b0110),
    (0xe8e8_e8e8_e8e8_e8e8, 0b0110_1000),
    (1 << 63, 1 << 63),
    (1, u64::MAX),
];

#[test]
fn forms_of_tables(rt: HostRuntime) {
    for (table, form) in &FORMS {
        assert!(rt; exclusive_form(*table) == *form, "table {table}");
    }
}
