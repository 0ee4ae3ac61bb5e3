//! Laws of registers that multiply. These functions do nothing: their contracts are proved of the definitions alone.

ghost use Rattle.make_laws.specs.NormalRegisters.{HoldNormalPlaces, HoldNormalProducts};
ghost use Rattle.make_laws.specs.DigitRegisters.{HoldDigitProducts, HoldDigitSums};

use gf_field::{Field, Ring};

/// In a normal basis squaring turns the coordinates by one place. So where two registers are turned in each cycle and a
/// third takes, bit by bit, the last coordinate of their product, this one holds the product after k cycles.
pub fn turning_registers_hold_the_product<F: Field>(_field: &F)
    ensures { HoldNormalProducts (F.degree _field.now) (F.product _field.now) }
{}

/// Where a register is multiplied by `x^D` in each cycle and takes a digit of a times b, the highest digit first, it holds
/// the product of a and b after k / D cycles.
pub fn fed_registers_hold_the_product<R: Ring>(_ring: &R)
    ensures { HoldDigitProducts (R.degree _ring.now) (R.product _ring.now) }
{}

/// After t cycles the first t places of that third register are the last t coordinates of the product.
pub fn turning_registers_hold_the_places<F: Field>(_field: &F)
    ensures { HoldNormalPlaces (F.degree _field.now) (F.product _field.now) }
{}

/// After t cycles the register that is fed holds the sum of the digits of a that were fed so far, the t highest, times b.
pub fn fed_registers_hold_the_sums<R: Ring>(_ring: &R)
    ensures { HoldDigitSums (R.degree _ring.now) (R.product _ring.now) }
{}
