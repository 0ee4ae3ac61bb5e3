//! The sums that the product takes.
ghost use Rattle.std.specs.Prelude.{◌≡◌, ◌+◌, ◌<◌, ◌≤◌, ◌^◌, OnOk, IfOk, length};
ghost use Rattle.make_nets.specs.Plan.{each};
ghost use Rattle.make_nets.specs.PlanShape.{HasRoom};
ghost use Rattle.mult_digit.specs.DigitPlan.{summands as summands_of, sums_from, with_sum};
ghost use Rattle.mult_digit.specs.private.Powers.{ArePowers};

use crate::powers::powers_of;
use crate::products::add_products;
use crate::summands::summands;
use gf_field::Ring;
use make_nets::PlanMaker;
use std::alloc::{AllocError, Global};
use std::marker::Model;

/// Gates in the making, and the nets of sums.
#[derive(Drop)]
pub(crate) struct SumMaker {
    plan: PlanMaker,
    nets: Vec<u32>,
}

impl Model for SumMaker {
    ghost use Rattle.mult_digit.specs.DigitPlan.{Sums};

    ghost Value = { Sums };

    ghost view = { λ m. record { plan = m.plan; nets = m.nets.items } };
}

impl SumMaker {
    // One more chain.
    fn add_sum(&mut self, list: &[u32]) -> Result<(), AllocError>
        requires room { HasRoom self.old.plan (length list.now + 1) }
        ensures { OnOk result (self.new ≡ with_sum list.now self.old) }
    {
        let net = self.plan.chain(list)?;
        self.nets.push(net)?;
        Ok(())
    }

    // A chain for each bit of the product.
    fn add_sums<R: Ring>(
        &mut self,
        alloc: Global,
        ring: &R,
        x: u64,
        powers: &[u64; 128],
        first: u32,
        width: u32,
        z: &[u32],
    ) -> Result<(), AllocError>
        requires powers { ArePowers (R.product ring.now) x powers.now }
        requires first { first ≤ 1024 }
        requires z_long { length z.now ≡ R.degree ring.now }
        requires width { width ≤ 64 }
        requires room { self.old.plan.next ≤ 8192 }
        ensures { OnOk result (self.new ≡ each (R.degree ring.now) (λ l. with_sum (summands_of first (R.degree ring.now) (R.product ring.now) x width z.now l)) self.old) }
    {
        for l in 0..ring.k() {
            let list = summands(alloc, ring, x, powers, first, width, z, l)?;
            self.add_sum(&list)?;
        }
        Ok(())
    }

    // The gates, and the nets of the sums.
    fn parts(self) -> (PlanMaker, Vec<u32>)
        ensures plan { result.0 ≡ self.plan }
        ensures nets { result.1.items ≡ self.nets }
    {
        (self.plan, self.nets)
    }
}

/// The products of the bits of a digit on the nets d and of the nets b, and the chains of which the nets z take the sums, by
/// place; inner nets are numbered from `first`. With the gates come the nets of the sums.
pub(crate) fn digit_sums<R: Ring>(
    alloc: Global,
    ring: &R,
    x: u64,
    first: u32,
    d: &[u32],
    b: &[u32],
    z: &[u32],
) -> Result<(PlanMaker, Vec<u32>), AllocError>
    requires x { x < 2 ^ R.degree ring.now }
    requires first { first ≤ 1024 }
    requires d_few { length d.now ≤ 64 }
    requires b_long { length b.now ≡ R.degree ring.now }
    requires z_long { length z.now ≡ R.degree ring.now }
    ensures plan { IfOk result (λ pair. pair.0 ≡ (sums_from first (R.degree ring.now) (R.product ring.now) x d.now b.now z.now).plan) }
    ensures nets { IfOk result (λ pair. pair.1.items ≡ (sums_from first (R.degree ring.now) (R.product ring.now) x d.now b.now z.now).nets) }
{
    let mut plan = PlanMaker::new(alloc, first);
    add_products(&mut plan, d, b)?;
    let mut sums = SumMaker {
        plan,
        nets: Vec::new(alloc),
    };
    let powers = powers_of(ring, x);
    sums.add_sums(alloc, ring, x, &powers, first, d.len() as u32, z)?;
    Ok(sums.parts())
}
