//! The products of bits of which the last coordinate is a sum.
ghost use Rattle.std.specs.Prelude.{◌≡◌, ◌+◌, ◌<◌, ◌≤◌, [], IfOk, OnOk, length};
ghost use Rattle.gf_basis.specs.BasisParts.{elements_of, IsBasisOver};
ghost use Rattle.mult_normal.specs.Coordinates.{counts_in};
ghost use Rattle.mult_normal.specs.NormalPlan.{sum_net, summed, with_product};
ghost use Rattle.make_nets.specs.Plan.{begun};
ghost use Rattle.make_nets.specs.PlanShape.{HasRoom};
ghost use Rattle.mult_normal.specs.private.Counted.{counted_products, counted_row, counted_rows};

use gf_basis::Basis;
use gf_field::{Field, Ring};
use make_nets::PlanMaker;
use std::alloc::{AllocError, Global};
use std::marker::Model;

/// Gates in the making, and the nets of products of two bits.
#[derive(Drop)]
pub(crate) struct ProductMaker {
    plan: PlanMaker,
    nets: Vec<u32>,
}

impl Model for ProductMaker {
    ghost use Rattle.mult_normal.specs.NormalPlan.{Products};

    ghost Value = { Products };

    ghost view = { λ m. record { plan = m.plan; nets = m.nets.items } };
}

// Whether coordinate k - 1 of the product of elements i and j of the basis is 1.
fn counts<F: Field>(field: &F, basis: &Basis, i: u32, j: u32) -> bool
    requires over { IsBasisOver (F.degree field.now) (F.product field.now) basis.now }
    requires first { i < F.degree field.now }
    requires second { j < F.degree field.now }
    ensures { result ≡ counts_in (F.degree field.now) (F.product field.now) (elements_of basis.now) i j }
{
    let product = field.mul(basis.element(i), basis.element(j));
    let coordinates = basis.bits_of(field, product);
    (coordinates >> (field.k() - 1)) % 2 == 1
}

impl ProductMaker {
    /// No gates yet; the first inner net has the number `first`.
    pub(crate) fn new(alloc: Global, first: u32) -> ProductMaker
        ensures { result ≡ record { plan = begun first; nets = [] } }
    {
        ProductMaker {
            plan: PlanMaker::new(alloc, first),
            nets: Vec::new(alloc),
        }
    }

    // One more product, where it counts.
    fn add_product(&mut self, counts: bool, a: u32, b: u32) -> Result<(), AllocError>
        requires room { HasRoom self.old.plan 1 }
        ensures { OnOk result (self.new ≡ with_product counts a b self.old) }
    {
        if counts {
            let net = self.plan.and(a, b)?;
            self.nets.push(net)?;
        }
        Ok(())
    }

    // The products of bit i of a and the bits of b that count.
    fn add_row<F: Field>(
        &mut self,
        field: &F,
        basis: &Basis,
        a: &[u32],
        b: &[u32],
        i: u32,
    ) -> Result<(), AllocError>
        requires over { IsBasisOver (F.degree field.now) (F.product field.now) basis.now }
        requires place { i < F.degree field.now }
        requires a_long { length a.now ≡ F.degree field.now }
        requires b_long { length b.now ≡ F.degree field.now }
        requires room { HasRoom self.old.plan (F.degree field.now) }
        ensures few { OnOk result (self.new.plan.next ≤ self.old.plan.next + F.degree field.now) }
        ensures made { OnOk result (self.new ≡ counted_row (F.degree field.now) (F.product field.now) (elements_of basis.now) a.now b.now i self.old) }
    {
        for j in 0..field.k() {
            let so = counts(field, basis, i, j);
            self.add_product(so, a[i as usize], b[j as usize])?;
        }
        Ok(())
    }

    // All products that count, by i and then j.
    fn add_rows<F: Field>(
        &mut self,
        field: &F,
        basis: &Basis,
        a: &[u32],
        b: &[u32],
    ) -> Result<(), AllocError>
        requires over { IsBasisOver (F.degree field.now) (F.product field.now) basis.now }
        requires a_long { length a.now ≡ F.degree field.now }
        requires b_long { length b.now ≡ F.degree field.now }
        requires room { HasRoom self.old.plan 4096 }
        ensures { OnOk result (self.new ≡ counted_rows (F.degree field.now) (F.product field.now) (elements_of basis.now) a.now b.now self.old) }
    {
        for i in 0..field.k() {
            self.add_row(field, basis, a, b, i)?;
        }
        Ok(())
    }

    // The chain of the products: the gates, and the net of the sum.
    fn sum(self) -> Result<(PlanMaker, u32), AllocError>
        requires room { HasRoom self.plan (length self.nets + 1) }
        ensures plan { IfOk result (λ pair. pair.0 ≡ summed self) }
        ensures net { IfOk result (λ pair. pair.1 ≡ sum_net self) }
    {
        let mut plan = self.plan;
        let net = plan.chain(&self.nets)?;
        Ok((plan, net))
    }
}

/// The products that count of the bits of two words on these nets, by their places, and the chain of them; inner nets are
/// numbered from `first`. With the gates comes the net of the chain.
pub(crate) fn last_sum<F: Field>(
    alloc: Global,
    field: &F,
    basis: &Basis,
    first: u32,
    a: &[u32],
    b: &[u32],
) -> Result<(PlanMaker, u32), AllocError>
    requires over { IsBasisOver (F.degree field.now) (F.product field.now) basis.now }
    requires a_long { length a.now ≡ F.degree field.now }
    requires b_long { length b.now ≡ F.degree field.now }
    requires room { first ≤ 1024 }
    ensures plan { IfOk result (λ pair. pair.0 ≡ summed (counted_products first (F.degree field.now) (F.product field.now) (elements_of basis.now) a.now b.now)) }
    ensures net { IfOk result (λ pair. pair.1 ≡ sum_net (counted_products first (F.degree field.now) (F.product field.now) (elements_of basis.now) a.now b.now)) }
{
    let mut products = ProductMaker::new(alloc, first);
    products.add_rows(field, basis, a, b)?;
    products.sum()
}
