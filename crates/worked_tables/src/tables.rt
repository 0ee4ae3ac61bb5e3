//! Tables over the field of 4 elements, worked by hand.

use gf_field::{Field, Ring2k, first_outside};
use irreducible::Proved;
use lift_table::{TableFault, is_small, lift, read_table, write_table};
use std::alloc::{AllocError, Global};
use std::process::Abort;
use std::test::Fail;

// The field of 4 elements, whose element 2 is a root of x^2 + x + 1.
fn field(rt: &impl Abort) -> Proved<Ring2k> {
    let ring = Ring2k::new(0x7).expect(rt, "a modulus");
    Proved::new(ring).ok().expect(rt, "a field")
}

// The polynomial of a table of one word, term by term: the exponent of the word and the coefficient.
fn lifted<F: Field>(
    rt: &impl Abort,
    alloc: Global,
    field: &F,
    table: &[u64],
) -> Result<Vec<(u64, u64)>, AllocError> {
    assert!(rt; field.k() == 2 && table.len() == 4);
    assert_eq!(rt; first_outside(field, table), None);
    let poly = lift(alloc, field, 1, table)?;
    let mut terms = Vec::new(alloc);
    for term in poly.terms(alloc)?.iter() {
        terms.push((term.mono().exponents()[0], term.coefficient()))?;
    }
    Ok(terms)
}

#[test]
fn tables_of_one_word(rt: HostRuntime) -> Result<(), Fail> {
    let alloc = rt.alloc();
    let field = field(&rt);
    assert_eq!(rt;
        lifted(&rt, alloc, &field, &[1, 0, 0, 0])?.as_slice(),
        [(3, 1), (0, 1)].as_slice()
    );
    assert_eq!(rt;
        lifted(&rt, alloc, &field, &[0, 0, 0, 1])?.as_slice(),
        [(3, 1), (2, 3), (1, 2)].as_slice()
    );
    assert_eq!(rt;
        lifted(&rt, alloc, &field, &[0, 1, 3, 2])?.as_slice(),
        [(2, 1)].as_slice()
    );
    assert!(rt; lifted(&rt, alloc, &field, &[0, 0, 0, 0])?.is_empty());
    Ok(())
}

// The line of a fault, 0 for none; faults of size are told apart by 100.
fn fault_at(alloc: Global, bytes: &[u8]) -> u32 {
    match read_table(alloc, bytes, 1, 1) {
        Ok(_) => 0,
        Err(TableFault::Syntax { line }) if line < 100 => line,
        Err(TableFault::TooLarge { line }) if line < 100 => 100 + line,
        Err(_) => u32::MAX,
    }
}

#[test]
fn texts(rt: HostRuntime) -> Result<(), Fail> {
    let alloc = rt.alloc();
    assert_eq!(rt;
        read_table(alloc, b"gftable 1\n0x1\n\t0x00 \r\n", 1, 1)?.as_slice(),
        [1, 0].as_slice()
    );
    assert_eq!(rt;
        write_table(alloc, &[1, 10])?.as_slice(),
        b"gftable 1\n0x1\n0xa\n".as_slice()
    );
    assert_eq!(rt; fault_at(alloc, b""), 1);
    assert_eq!(rt; fault_at(alloc, b"gftable 01\n0x1\n0x0\n"), 1);
    assert_eq!(rt; fault_at(alloc, b"gftable 1\n0x1\n"), 3);
    assert_eq!(rt; fault_at(alloc, b"gftable 1\n0x1\n1\n"), 3);
    assert_eq!(rt; fault_at(alloc, b"gftable 1\n0x1\n0x0\n\n"), 4);
    assert_eq!(rt; fault_at(alloc, b"gftable 1\n0x2\n0xg\n"), 102);
    assert_eq!(rt;
        fault_at(
            alloc,
            b"gftable 1\n0x0\n0xffffffffffffffffffffffffffffffffff\n"
        ),
        103
    );
    assert!(rt; is_small(8, 2) && is_small(2, 8) && !is_small(9, 1) && !is_small(8, 3));
    Ok(())
}
