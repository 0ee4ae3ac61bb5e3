//! The products of all elements of a small field, each made once.
ghost use Rattle.std.specs.Prelude.{◌≡◌, ◌<◌, ◌≤◌, ◌^◌, IfOk};
ghost use Rattle.lift_table.specs.private.Products.{AreProducts};

use crate::small::{elements_of, rows_of};
use gf_field::Field;
use std::alloc::{AllocError, Global};

/// The products of all pairs of elements, of which the second one counts slower.
pub(crate) fn products<F: Field>(alloc: Global, field: &F) -> Result<Vec<u64>, AllocError>
    requires { F.degree field.now ≤ 8 }
    ensures { IfOk result (λ list. AreProducts (F.degree field.now) (F.product field.now) list.items) }
{
    let count = elements_of(field);
    let pairs = rows_of(field, 2);
    let mut list = Vec::with_capacity(alloc, pairs)?;
    for i in 0..pairs {
        let product = field.mul((i % count) as u64, (i / count) as u64);
        list.push(product)?;
    }
    Ok(list)
}

/// The product of two elements.
pub(crate) fn product_of<F: Field>(field: &F, products: &[u64], a: u64, b: usize) -> u64
    requires small { F.degree field.now ≤ 8 }
    requires products { AreProducts (F.degree field.now) (F.product field.now) products.now }
    requires first { a < 2 ^ F.degree field.now }
    requires second { b < 2 ^ F.degree field.now }
    ensures product { result ≡ F.product field.now a b }
    ensures element { result < 2 ^ F.degree field.now }
{
    products[b * elements_of(field) + a as usize]
}
