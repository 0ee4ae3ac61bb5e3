//! The nets of a digit, and the latches of the product.
ghost use Rattle.std.specs.Prelude.{◌≡◌, ◌+◌, ◌<◌, ◌^◌, IfOk, length};
ghost use Rattle.std.specs.List.{range_with_len};
ghost use Rattle.mult_digit.specs.DigitPlan.{digit_latches};

use net_core::{Latch, Start};
use std::alloc::{AllocError, Global};

/// The nets of a digit of so many bits, from this one.
pub(crate) fn digit_nets(alloc: Global, first: u32, width: u32) -> Result<Vec<u32>, AllocError>
    requires { first + width < 2 ^ 32 }
    ensures { IfOk result (λ list. list.items ≡ range_with_len first width) }
{
    let mut list = Vec::new(alloc);
    for e in 0..width {
        list.push(first + e)?;
    }
    Ok(list)
}

/// The latches of the product, by place: each starts with 0 and takes its sum.
pub(crate) fn latches(alloc: Global, sums: &[u32], z: &[u32]) -> Result<Vec<Latch>, AllocError>
    requires { length sums.now ≡ length z.now }
    ensures { IfOk result (λ list. list.items ≡ digit_latches (length z.now) sums.now z.now) }
{
    let mut list = Vec::new(alloc);
    for l in 0..z.len() {
        list.push(Latch {
            next: sums[l],
            out: z[l],
            start: Start::Zero,
        })?;
    }
    Ok(list)
}
