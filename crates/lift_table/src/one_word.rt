//! Interpolation in one word.
ghost use Rattle.std.specs.Prelude.{◌≡◌, ◌*◌, ◌<◌, ◌≤◌, ◌^◌, ℕ, length, slice_index, IfOk, OnOk};
ghost use Rattle.gf_field.specs.Element.{AreElements};
ghost use Rattle.gf_field.specs.Polynomial.{sum_of_first};
ghost use Rattle.lift_table.specs.private.Columns.{AddsCoefficients, AreCoefficients, AreColumns};
ghost use Rattle.lift_table.specs.private.Products.{AreProducts};

use crate::gather::gather;
use crate::products::product_of;
use crate::small::elements_of;
use gf_field::Field;
use std::alloc::{AllocError, Global};

// The sum of elements.
fn sum_of<F: Field>(_field: &F, values: &[u64]) -> u64
    requires { AreElements (F.degree _field.now) values.now }
    ensures sum { result ≡ sum_of_first (length values.now) (slice_index values.now) }
    ensures element { result < 2 ^ F.degree _field.now }
{
    let mut sum = 0;
    for value in values {
        sum ^= *value;
    }
    sum
}

// Multiplies the value of each element with the element.
fn raise<F: Field>(field: &F, products: &[u64], values: &mut Vec<u64>)
    requires small { F.degree field.now ≤ 8 }
    requires products { AreProducts (F.degree field.now) (F.product field.now) products.now }
    requires long { length values.old.items ≤ 2 ^ F.degree field.now }
    requires elements { AreElements (F.degree field.now) values.old.items }
    ensures long { length values.new.items ≡ length values.old.items }
    ensures at { (x : ℕ) → x < length values.old.items → slice_index values.new.items x ≡ F.product field.now (slice_index values.old.items x) x }
    ensures elements { AreElements (F.degree field.now) values.new.items }
{
    for x in 0..values.len() {
        values[x] = product_of(field, products, values[x], x);
    }
}

// The coefficients of the polynomial in one word that has these values at the elements of the field.
fn coefficients<F: Field>(
    alloc: Global,
    field: &F,
    products: &[u64],
    values: &[u64],
) -> Result<Vec<u64>, AllocError>
    requires small { F.degree field.now ≤ 8 }
    requires products { AreProducts (F.degree field.now) (F.product field.now) products.now }
    requires long { length values.now ≡ 2 ^ F.degree field.now }
    requires elements { AreElements (F.degree field.now) values.now }
    ensures { IfOk result (λ list. AreCoefficients (F.degree field.now) (F.product field.now) values.now list.items) }
{
    let mut list = Vec::from_slice(alloc, values)?;
    let mut left = Vec::from_slice(alloc, values)?;
    for step in 0..values.len() - 1 {
        list[values.len() - 1 - step] = sum_of(field, &left);
        raise(field, products, &mut left);
    }
    Ok(list)
}

// Adds the coefficients of the polynomial in one word that has these values.
fn add_column<F: Field>(
    alloc: Global,
    field: &F,
    products: &[u64],
    values: &[u64],
    list: &mut Vec<u64>,
) -> Result<(), AllocError>
    requires small { F.degree field.now ≤ 8 }
    requires products { AreProducts (F.degree field.now) (F.product field.now) products.now }
    requires long { length values.now ≡ 2 ^ F.degree field.now }
    requires elements { AreElements (F.degree field.now) values.now }
    ensures { OnOk result (AddsCoefficients (F.degree field.now) (F.product field.now) values.now list.old.items list.new.items) }
{
    let column = coefficients(alloc, field, products, values)?;
    list.extend_from_slice(&column)?;
    Ok(())
}

/// The coefficients in the last word: for each of n inputs of the others, that of each power.
pub(crate) fn columns<F: Field>(
    alloc: Global,
    field: &F,
    products: &[u64],
    table: &[u64],
    n: usize,
) -> Result<Vec<u64>, AllocError>
    requires small { F.degree field.now ≤ 8 }
    requires products { AreProducts (F.degree field.now) (F.product field.now) products.now }
    requires long { length table.now ≡ n * 2 ^ F.degree field.now }
    requires elements { AreElements (F.degree field.now) table.now }
    ensures { IfOk result (λ list. AreColumns (F.degree field.now) (F.product field.now) n table.now list.items) }
{
    let count = elements_of(field);
    let mut list = Vec::new(alloc);
    for row in 0..n {
        let values = gather(alloc, table, n, row, count)?;
        add_column(alloc, field, products, &values, &mut list)?;
    }
    Ok(list)
}
